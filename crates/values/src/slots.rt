// The values of a record put into a text, by the slots of a block at a time, and the place behind each kept.
//
// Beside what it puts each says how many bytes that is at most, so that 398 have room for all.
ghost use Rattle.std.specs.Prelude.{◌≡◌, ◌≤◌, length, take, drop};
ghost use mathlib.Core.List.{[], ◌∷◌, flatten};
ghost use Rattle.std.proofs.lemmas.List.Edits.{sets};
ghost use Rattle.text.specs.Texts.{contents};
ghost use Rattle.fill.specs.Runs.{over_run, behind_run};
ghost use Rattle.values.specs.Values.{values};
ghost use Rattle.fill.specs.Places.{ends};

use super::{narrative, words};
use text::Text;
use trade::Trade;

// SEME, 23G, PREP, MAST, PREV and LIST.
pub(crate) fn put_general(text: &mut [u8], places: &mut [usize], trade: Trade) -> usize
    ensures { (result ≡ behind_run text.old 0 (take 6 (drop 1 (values trade))))
        × (text.new ≡ over_run text.old 0 (take 6 (drop 1 (values trade))))
        × (places.new ≡ sets places.old 2 (ends text.old 0 (take 6 (drop 1 (values trade)))))
        × (length (flatten (take 6 (drop 1 (values trade)))) ≤ 98) }
{
    let kind = trade.kind;
    let seme = placing::put_text(text, 0, trade.seme);
    let function = text::put(text, seme, &words::function_word(kind));
    let prep = trade.prep.put(text, function);
    placing::keep(places, 2, &[seme, function, prep]);
    placing::put_three(text, places, prep, 5, trade.mast, trade.prev, trade.list)
}

// TRAD, SETT, DEAL, BUSE and PROC.
pub(crate) fn put_details(text: &mut [u8], places: &mut [usize], at: usize, trade: Trade) -> usize
    ensures { (result ≡ behind_run text.old at (take 5 (drop 7 (values trade))))
        × (text.new ≡ over_run text.old at (take 5 (drop 7 (values trade))))
        × (places.new ≡ sets places.old 8 (ends text.old at (take 5 (drop 7 (values trade)))))
        × (length (flatten (take 5 (drop 7 (values trade)))) ≤ 45) }
{
    let side = trade.side;
    let kind = trade.kind;
    let trad = trade.trad.put(text, at);
    let sett = trade.sett.put(text, trad);
    let price = trade.price.0.put(text, sett);
    placing::keep(places, 8, &[trad, sett, price]);
    placing::put_words(
        text,
        places,
        price,
        11,
        typed::sides::side_word(side),
        words::kind_word(kind),
    )
}

// Par, CUSIP, POOL and the narrative.
pub(crate) fn put_security(text: &mut [u8], places: &mut [usize], at: usize, trade: Trade) -> usize
    ensures { (result ≡ behind_run text.old at (take 4 (drop 18 (values trade))))
        × (text.new ≡ over_run text.old at (take 4 (drop 18 (values trade))))
        × (places.new ≡ sets places.old 19 (ends text.old at (take 4 (drop 18 (values trade)))))
        × (length (flatten (take 4 (drop 18 (values trade)))) ≤ 95) }
{
    let service = trade.service;
    let period = trade.period;
    let par = trade.par.0.put(text, at);
    let cusip = placing::put_text(text, par, trade.cusip);
    let pool = placing::put_text(text, cusip, trade.pool);
    let told = narrative::put_narrative(text, pool, service, period, trade.reason);
    placing::keep(places, 19, &[par, cusip, pool, told]);
    told
}

// The password and the sender; in front of them six numbers that name no slot.
pub(crate) fn put_header(
    text: &mut [u8],
    places: &mut [usize],
    at: usize,
    password: Text,
    sender: Text,
) -> usize
    ensures { (result ≡ behind_run text.old at ([] ∷ [] ∷ [] ∷ [] ∷ [] ∷ [] ∷ contents password ∷ contents sender ∷ []))
        × (text.new ≡ over_run text.old at ([] ∷ [] ∷ [] ∷ [] ∷ [] ∷ [] ∷ contents password ∷ contents sender ∷ []))
        × (places.new ≡ sets places.old 23 (ends text.old at ([] ∷ [] ∷ [] ∷ [] ∷ [] ∷ [] ∷ contents password ∷ contents sender ∷ [])))
        × (length (flatten ([] ∷ [] ∷ [] ∷ [] ∷ [] ∷ [] ∷ contents password ∷ contents sender ∷ [])) ≤ 40) }
{
    placing::keep(places, 23, &[at, at, at, at, at, at]);
    placing::put_two(text, places, at, 29, password, sender)
}
