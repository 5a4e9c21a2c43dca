// A payment of a record: judging it and putting it.
ghost use Rattle.std.specs.Prelude.{◌≡◌, ◌≤◌, length};
ghost use Rattle.text.specs.Copy.{placed, after};
ghost use Rattle.typed.specs.Payments.{payment_text, payment_form};

use amount::Money;

// A payment is absent, or an amount in form.
#[tactic(auto, unfolding(crate::specs::Payments::payment_form))]
pub fn payment_form(payment: Option<Money>) -> bool
    ensures { result ≡ payment_form payment }
{
    payment.is_none_or(|money| money.0.in_form())
}

// Puts the text of a payment, as `text::put` puts a part; one that is absent has none.
pub fn put_payment(buf: &mut [u8], at: usize, payment: Option<Money>) -> usize
    ensures { (result ≡ after buf.old at (payment_text payment)) × (buf.new ≡ placed buf.old at (payment_text payment)) × (length (payment_text payment) ≤ 15) }
{
    match payment {
        None => text::put(buf, at, b""),
        Some(money) => money.0.put(buf, at),
    }
}
