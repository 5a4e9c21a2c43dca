// Whether the fields of a record are in form, which is number 18, by the slots of a block at a time.
ghost use Rattle.std.specs.Prelude.{◌≡◌, [], ◌∷◌, take, drop};
ghost use Rattle.text.specs.Texts.{in_form as text_form};
ghost use Rattle.format.specs.Writable.{hold};
ghost use Rattle.pool_values.specs.Writable.{delivery_form, tests, in_form};

use calendar::Date;
use pool_trade::{Party, PoolTrade};

fn delivery_form(delivery: Option<Date>) -> bool
    ensures { result ≡ delivery_form delivery }
{
    match delivery {
        None => true,
        Some(date) => date.in_form(),
    }
}

fn party_form(party: Party) -> bool
    ensures { result ≡ hold (text_form 4 4 party.code ∷ text_form 0 16 party.reference ∷ []) }
{
    let code = party.code.in_form(4, 4);
    let reference = party.reference.in_form(0, 16);
    code & reference
}

// SEME, MAST, PREV and LIST; 23G is not held.
fn general_form(trade: PoolTrade) -> bool
    ensures { result ≡ hold (take 6 (tests trade)) }
{
    let seme = trade.seme.in_form(1, 16);
    let mast = trade.mast.in_form(0, 16);
    let prev = trade.prev.in_form(0, 16);
    let list = trade.list.in_form(0, 16);
    seme & (mast & (prev & list))
}

// TRAD, SETT, DEAL and the money; the code words of BUSE and PROC are always words.
fn details_form(trade: PoolTrade) -> bool
    ensures { result ≡ hold (take 6 (drop 6 (tests trade))) }
{
    let paid = trade.money;
    let trad = trade.trad.in_form();
    let sett = trade.sett.in_form();
    let price = trade.price.0.in_form();
    let money = typed::payments::payment_form(paid);
    trad & (sett & (price & money))
}

// Par, CUSIP, POOL and the narrative.
fn security_form(trade: PoolTrade) -> bool
    ensures { result ≡ hold (take 4 (drop 16 (tests trade))) }
{
    let on = trade.delivery;
    let par = trade.par.0.in_form();
    let cusip = trade.cusip.in_form(9, 9);
    let pool = trade.pool.in_form(0, 9);
    let delivery = delivery_form(on);
    let reason = reason::in_form(trade.reason);
    par & (cusip & (pool & (delivery & reason)))
}

fn header_form(trade: PoolTrade) -> bool
    ensures { result ≡ hold (drop 20 (tests trade)) }
{
    let password = trade.password.in_form(0, 12);
    let sender = trade.sender.in_form(1, 8);
    password & sender
}

pub fn in_form(trade: PoolTrade) -> bool
    ensures { result ≡ in_form trade }
{
    let general = general_form(trade);
    let details = details_form(trade);
    let buyer = party_form(trade.buyer);
    let seller = party_form(trade.seller);
    let security = security_form(trade);
    let header = header_form(trade);
    general & (details & (buyer & (seller & (security & header))))
}
