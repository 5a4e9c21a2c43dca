// A record as 375 bytes, for programs in C. The crate `unpacked` goes the other way.
//
// What is right stands in specs/Packed.
#![tactic(auto)]

mod codes;
mod fields;
mod places;

ghost use Rattle.std.specs.Prelude.{◌≡◌};
ghost use Rattle.packed.specs.Packed.{packed_of};

use trade::Trade;

// Puts the bytes of a record.
pub fn pack(trade: Trade, packed: &mut [u8; 375])
    ensures { packed.new ≡ packed_of trade }
{
    let texts = text::put(packed, 0, &codes::codes_of(trade));
    let numbers = text::put(packed, texts, &places::text_row(fields::texts_of(trade)));
    text::put(
        packed,
        numbers,
        &places::number_row(fields::numbers_of(trade)),
    );
}
