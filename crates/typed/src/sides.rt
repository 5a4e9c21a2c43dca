// The side of a trade and its word, BUYI or SELL.
ghost use Rattle.std.specs.Prelude.{◌≡◌};
ghost use Rattle.typed.specs.Sides.{side_in, side_word};

use super::Side;

const SIDES: [u8; 8] = *b"BUYISELL";

// The side that a word means; the first where it is none of the two.
pub fn side_in(value: &[u8]) -> Side
    ensures { result ≡ side_in value.now }
{
    match forms::word_at(&SIDES, value) {
        1 => Side::Sell,
        _ => Side::Buyi,
    }
}

pub fn side_word(side: Side) -> [u8; 4]
    ensures { result ≡ side_word side }
{
    match side {
        Side::Buyi => *b"BUYI",
        Side::Sell => *b"SELL",
    }
}
