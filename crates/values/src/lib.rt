// The values that a record has for the slots of an MT515.
//
// What is right stands in specs/Values and specs/Places; specs/Writable says when a record is in form.
#![tactic(auto)]

mod narrative;
mod slots;
pub mod words;

ghost use Rattle.std.specs.Prelude.{◌≡◌, ◌≤◌, length};
ghost use mathlib.Core.List.{◌∷◌, flatten};
ghost use Rattle.fill.specs.Runs.{over_run};
ghost use Rattle.values.specs.Values.{values, value_of};
ghost use Rattle.fill.specs.Places.{ends};

use trade::Trade;

// What the layout makes optional: PREP, MAST, PREV, LIST, of each party the contra reference and the trader, and POOL.
pub const OPTIONAL: [u8; 9] = *b"\x03\x04\x05\x06\x0d\x0e\x10\x11\x14";

// Puts the values of a record, one behind the other, at the start of a lent text, each where it has room, and keeps the place
// where each begins: the value of a slot ends where that of the next begins. A text of 398 bytes has room for all.
pub fn put_values(text: &mut [u8], places: &mut [usize; 31], trade: Trade)
    ensures { (text.new ≡ over_run text.old 0 (values trade)) × (places.new ≡ 0 ∷ ends text.old 0 (values trade)) × (length (flatten (values trade)) ≤ 398) }
{
    places[0] = 0;
    places[1] = 0;
    let details = slots::put_general(text, places, trade);
    let buyer = slots::put_details(text, places, details, trade);
    let seller = placing::put_three(
        text,
        places,
        buyer,
        13,
        trade.buyer.code,
        trade.buyer.reference,
        trade.buyer.trader,
    );
    let security = placing::put_three(
        text,
        places,
        seller,
        16,
        trade.seller.code,
        trade.seller.reference,
        trade.seller.trader,
    );
    let header = slots::put_security(text, places, security, trade);
    slots::put_header(text, places, header, trade.password, trade.sender);
}

// How long the narrative is: it is put into a line that has room for every one.
pub fn narrative_length(trade: Trade) -> usize
    ensures { result ≡ length (value_of trade 21) }
{
    let service = trade.service;
    let period = trade.period;
    let mut line = [0u8; 40];
    narrative::put_narrative(&mut line, 0, service, period, trade.reason)
}
