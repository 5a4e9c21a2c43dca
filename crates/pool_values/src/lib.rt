// The values that a record has for the slots of a pool message.
//
// What is right stands in specs/Values and fill's specs/Places; specs/Writable says when a record is in form.
#![tactic(auto)]

mod narrative;
mod slots;
mod words;

ghost use Rattle.std.specs.Prelude.{◌≡◌, ◌≤◌, length};
ghost use mathlib.Core.List.{◌∷◌, flatten};
ghost use Rattle.fill.specs.Runs.{over_run};
ghost use Rattle.fill.specs.Places.{ends};
ghost use Rattle.pool_values.specs.Values.{values, value_of};

use pool_trade::PoolTrade;

// What the layout makes optional: MAST, PREV, LIST, the money, of each party the contra reference, and POOL.
pub const OPTIONAL: [u8; 7] = *b"\x03\x04\x05\x09\x0d\x0f\x12";

// Puts the values of a record, one behind the other, at the start of a lent text, each where it has room, and keeps the place
// where each begins: the value of a slot ends where that of the next begins. A text of 371 bytes has room for all.
pub fn put_values(text: &mut [u8], places: &mut [usize; 23], trade: PoolTrade)
    ensures { (text.new ≡ over_run text.old 0 (values trade)) × (places.new ≡ 0 ∷ ends text.old 0 (values trade)) × (length (flatten (values trade)) ≤ 371) }
{
    places[0] = 0;
    places[1] = 0;
    let details = slots::put_general(text, places, trade);
    let buyer = slots::put_details(text, places, details, trade);
    let seller = placing::put_two(
        text,
        places,
        buyer,
        13,
        trade.buyer.code,
        trade.buyer.reference,
    );
    let security = placing::put_two(
        text,
        places,
        seller,
        15,
        trade.seller.code,
        trade.seller.reference,
    );
    let header = slots::put_security(text, places, security, trade);
    placing::put_two(text, places, header, 21, trade.password, trade.sender);
}

// How long the narrative is: it is put into a line that has room for every one.
pub fn narrative_length(trade: PoolTrade) -> usize
    ensures { result ≡ length (value_of trade 19) }
{
    let delivery = trade.delivery;
    let mut line = [0u8; 52];
    narrative::put_narrative(&mut line, 0, trade.cdr, delivery, trade.reason)
}
