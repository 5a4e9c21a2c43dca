// Digits and numbers: reading the digits of a part, and putting a number's digits into a lent buffer.
//
// What is right stands in specs/Numerals.
#![tactic(auto)]

ghost use Rattle.std.specs.Prelude.{◌≡◌, ◌-◌, true};
ghost use Rattle.text.specs.Classes.{is_digit};
ghost use Rattle.text.specs.Copy.{placed, after};
ghost use Rattle.digits.specs.Numerals.{digits, run_of, number_of, ten_to};

use text::Class;

// The digits that a part begins with: the number that they spell, and how many they are.
#[derive(Clone, Copy)]
pub struct Run {
    pub number: u64,
    pub len: usize,
}

// The power of ten that moves a comma by a number of places: few are the rule, so that multiplying is less work than a table.
pub fn ten_to(places: usize) -> u64
    ensures { result ≡ ten_to places }
{
    if 14 < places {
        return 0;
    }
    let mut power = 1;
    for _place in 0..places {
        power *= 10;
    }
    power
}

fn value(digit: u8) -> u64
    requires { is_digit digit ≡ true }
    ensures { result ≡ digit - 48 }
{
    u64::from(digit - b'0')
}

// The digits that a part of at most eighteen bytes begins with; of a longer part none.
pub fn front(part: &[u8]) -> Run
    ensures { result ≡ run_of part.now }
{
    if 18 < part.len() {
        return Run { number: 0, len: 0 };
    }
    let mut number = 0;
    for (len, byte) in part.iter().enumerate() {
        if !text::in_class(Class::Digit, *byte) {
            return Run { number, len };
        }
        number = number * 10 + value(*byte);
    }
    Run {
        number,
        len: part.len(),
    }
}

// The number that a part of at most eighteen digits spells; no digits spell 0, and any other part spells none.
pub fn read_digits(part: &[u8]) -> Option<u64>
    ensures { result ≡ number_of part.now }
{
    let run = front(part);
    if run.len == part.len() {
        Some(run.number)
    } else {
        None
    }
}

// Puts the last `width` digits of a number into a lent buffer, as `text::put` puts a part.
pub fn put_digits(buf: &mut [u8], at: usize, width: usize, number: u64) -> usize
    ensures { (result ≡ after buf.old at (digits width number)) × (buf.new ≡ placed buf.old at (digits width number)) }
{
    if buf.len() < at {
        return at;
    }
    if buf.len() - at < width {
        return at;
    }
    let mut rest = number;
    // By place: over a mutable iterator from the back the proof did not close, since it tells what the buffer holds only at its end.
    for left in (0..width).rev() {
        buf[at + left] = b'0' + (rest % 10) as u8;
        rest /= 10;
    }
    at + width
}
