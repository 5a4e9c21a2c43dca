// The values of a record put into a text, by the slots of a block at a time, and the place behind each kept.
//
// Beside what it puts each says how many bytes that is at most, so that 371 have room for all.
ghost use Rattle.std.specs.Prelude.{◌≡◌, ◌≤◌, length, take, drop};
ghost use mathlib.Core.List.{flatten};
ghost use Rattle.std.proofs.lemmas.List.Edits.{sets};
ghost use Rattle.fill.specs.Runs.{over_run, behind_run};
ghost use Rattle.fill.specs.Places.{ends};
ghost use Rattle.pool_values.specs.Values.{values};

use super::{narrative, words};
use pool_trade::PoolTrade;

// SEME, 23G, MAST, PREV and LIST.
pub(crate) fn put_general(text: &mut [u8], places: &mut [usize], trade: PoolTrade) -> usize
    ensures { (result ≡ behind_run text.old 0 (take 5 (drop 1 (values trade))))
        × (text.new ≡ over_run text.old 0 (take 5 (drop 1 (values trade))))
        × (places.new ≡ sets places.old 2 (ends text.old 0 (take 5 (drop 1 (values trade)))))
        × (length (flatten (take 5 (drop 1 (values trade)))) ≤ 84) }
{
    let kind = trade.kind;
    let seme = placing::put_text(text, 0, trade.seme);
    let function = text::put(text, seme, &words::function_word(kind));
    placing::keep(places, 2, &[seme, function]);
    placing::put_three(
        text, places, function, 4, trade.mast, trade.prev, trade.list,
    )
}

// TRAD, SETT, DEAL, the money, BUSE and PROC.
pub(crate) fn put_details(
    text: &mut [u8],
    places: &mut [usize],
    at: usize,
    trade: PoolTrade,
) -> usize
    ensures { (result ≡ behind_run text.old at (take 6 (drop 6 (values trade))))
        × (text.new ≡ over_run text.old at (take 6 (drop 6 (values trade))))
        × (places.new ≡ sets places.old 7 (ends text.old at (take 6 (drop 6 (values trade)))))
        × (length (flatten (take 6 (drop 6 (values trade)))) ≤ 60) }
{
    let money = trade.money;
    let side = trade.side;
    let kind = trade.kind;
    let trad = trade.trad.put(text, at);
    let sett = trade.sett.put(text, trad);
    let price = trade.price.0.put(text, sett);
    let paid = typed::payments::put_payment(text, price, money);
    placing::keep(places, 7, &[trad, sett, price, paid]);
    placing::put_words(
        text,
        places,
        paid,
        11,
        typed::sides::side_word(side),
        words::kind_word(kind),
    )
}

// Par, CUSIP, POOL and the narrative.
pub(crate) fn put_security(
    text: &mut [u8],
    places: &mut [usize],
    at: usize,
    trade: PoolTrade,
) -> usize
    ensures { (result ≡ behind_run text.old at (take 4 (drop 16 (values trade))))
        × (text.new ≡ over_run text.old at (take 4 (drop 16 (values trade))))
        × (places.new ≡ sets places.old 17 (ends text.old at (take 4 (drop 16 (values trade)))))
        × (length (flatten (take 4 (drop 16 (values trade)))) ≤ 107) }
{
    let delivery = trade.delivery;
    let par = trade.par.0.put(text, at);
    let cusip = placing::put_text(text, par, trade.cusip);
    let pool = placing::put_text(text, cusip, trade.pool);
    let told = narrative::put_narrative(text, pool, trade.cdr, delivery, trade.reason);
    placing::keep(places, 17, &[par, cusip, pool, told]);
    told
}
