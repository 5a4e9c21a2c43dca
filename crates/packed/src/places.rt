// A text in its 21 bytes and a number in its 8, and the rows of them.
ghost use Rattle.std.specs.Prelude.{◌≡◌};
ghost use mathlib.Core.List.{map, flatten};
ghost use Rattle.packed.specs.Packed.{text_bytes, number_bytes};

use super::codes;
use text::Text;

// The length of a text, and its bytes.
fn text_bytes(text: Text) -> [u8; 21]
    ensures { result ≡ text_bytes text }
{
    let bytes = text.bytes;
    let mut place = [0u8; 21];
    place[0] = codes::at_most(255, text.len as u64) as u8;
    text::put(&mut place, 1, &bytes);
    place
}

// The places of all texts, one behind the other.
pub(crate) fn text_row(texts: [Text; 15]) -> [u8; 315]
    ensures { result ≡ flatten (map text_bytes texts) }
{
    let mut row = [0u8; 315];
    for (i, &text) in texts.iter().enumerate() {
        text::put(&mut row, i * 21, &text_bytes(text));
    }
    row
}

// And of all numbers, the least byte of each first.
pub(crate) fn number_row(numbers: [u64; 7]) -> [u8; 56]
    ensures { result ≡ flatten (map (number_bytes 8) numbers) }
{
    let mut row = [0u8; 56];
    for (i, &number) in numbers.iter().enumerate() {
        text::put(&mut row, i * 8, &number.to_le_bytes());
    }
    row
}
