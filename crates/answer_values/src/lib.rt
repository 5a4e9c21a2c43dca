// The values that a record has for the slots of an MT509.
//
// What is right stands in specs/Values and fill's specs/Places; specs/Writable says when a record is in form.
#![tactic(auto)]

mod reasons;
mod slots;

ghost use Rattle.std.specs.Prelude.{◌≡◌, ◌≤◌, length};
ghost use mathlib.Core.List.{◌∷◌, flatten};
ghost use Rattle.fill.specs.Runs.{over_run};
ghost use Rattle.fill.specs.Places.{ends};
ghost use Rattle.answer_values.specs.Values.{values};

use answer::Answer;

// What the layout makes optional: PREP, the seven LINKs, and of each reason the code and the text.
pub const OPTIONAL: [u8; 28] = *b"\x03\x04\x05\x06\x07\x08\x09\x0a\x0c\x0d\x0e\x0f\x10\x11\
    \x12\x13\x14\x15\x16\x17\x18\x19\x1a\x1b\x1c\x1d\x1e\x1f";

// Puts the values of a record, one behind the other, at the start of a lent text, each where it has room, and keeps the place
// where each begins: the value of a slot ends where that of the next begins. A text of 787 bytes has room for all.
pub fn put_values(text: &mut [u8], places: &mut [usize; 35], answer: Answer)
    ensures { (text.new ≡ over_run text.old 0 (values answer)) × (places.new ≡ 0 ∷ ends text.old 0 (values answer)) × (length (flatten (values answer)) ≤ 787) }
{
    places[0] = 0;
    places[1] = 0;
    let links = slots::put_general(text, places, answer);
    let status = slots::put_links(text, places, links, answer);
    let reasons = slots::put_status(text, places, status, answer);
    let header = reasons::put_reasons(text, places, reasons, answer);
    placing::put_two(text, places, header, 33, answer.password, answer.receiver);
}
