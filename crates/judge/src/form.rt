// Whether the fields of a record are in form, which is number 18, by the slots of a block at a time.
ghost use Rattle.std.specs.Prelude.{◌≡◌, [], ◌∷◌, take, drop};
ghost use Rattle.text.specs.Texts.{in_form as text_form};
ghost use Rattle.format.specs.Writable.{hold};
ghost use Rattle.values.specs.Writable.{period_form, tests, in_form};

use trade::{Party, Trade};

fn period_form(period: Option<u64>) -> bool
    ensures { result ≡ period_form period }
{
    match period {
        None => true,
        Some(days) => days <= 9,
    }
}

fn party_form(party: Party) -> bool
    ensures { result ≡ hold (text_form 4 4 party.code ∷ text_form 0 16 party.reference ∷ text_form 0 20 party.trader ∷ []) }
{
    let code = party.code.in_form(4, 4);
    let reference = party.reference.in_form(0, 16);
    let trader = party.trader.in_form(0, 20);
    code & (reference & trader)
}

// SEME, PREP, MAST, PREV and LIST.
fn general_form(trade: Trade) -> bool
    ensures { result ≡ hold (take 7 (tests trade)) }
{
    let seme = trade.seme.in_form(1, 16);
    let prep = typed::prep_form(trade.prep);
    let mast = trade.mast.in_form(0, 16);
    let prev = trade.prev.in_form(0, 16);
    let list = trade.list.in_form(0, 16);
    seme & (prep & (mast & (prev & list)))
}

// TRAD, SETT and DEAL; the code words of BUSE and PROC are always words.
fn details_form(trade: Trade) -> bool
    ensures { result ≡ hold (take 5 (drop 7 (tests trade))) }
{
    let trad = trade.trad.in_form();
    let sett = trade.sett.in_form();
    let price = trade.price.0.in_form();
    trad & (sett & price)
}

// Par, CUSIP, POOL and the narrative.
fn security_form(trade: Trade) -> bool
    ensures { result ≡ hold (take 4 (drop 18 (tests trade))) }
{
    let par = trade.par.0.in_form();
    let cusip = trade.cusip.in_form(9, 9);
    let pool = trade.pool.in_form(0, 9);
    let days = trade.period;
    let period = period_form(days);
    let reason = reason::in_form(trade.reason);
    par & (cusip & (pool & (period & reason)))
}

fn header_form(trade: Trade) -> bool
    ensures { result ≡ hold (drop 22 (tests trade)) }
{
    let password = trade.password.in_form(0, 12);
    let sender = trade.sender.in_form(1, 8);
    password & sender
}

pub fn in_form(trade: Trade) -> bool
    ensures { result ≡ in_form trade }
{
    let general = general_form(trade);
    let details = details_form(trade);
    let buyer = party_form(trade.buyer);
    let seller = party_form(trade.seller);
    let security = security_form(trade);
    let header = header_form(trade);
    general & (details & (buyer & (seller & (security & header))))
}
