// The text of a reason as a record holds it: up to thirty-five bytes that can be printed. It stands beside `text::Text`, which has
// room for twenty c.
//
// What is right stands in specs/Remarks.
#![tactic(auto)]

ghost use Rattle.std.specs.Prelude.{◌≡◌};
ghost use Rattle.text.specs.Copy.{placed, after};
ghost use Rattle.remark.specs.Remarks.{contents, remark_of, in_form};

use text::{Class, Padded};

pub type Remark = Padded<35>;

pub const BLANK: Remark = Remark::BLANK;

// A part of a message as a remark; one that is longer than any gives none, and is never cut. So its width is to be judged on the
// part, before.
pub fn of(part: &[u8]) -> Remark
    ensures { result ≡ remark_of part.now }
{
    if 35 < part.len() {
        return BLANK;
    }
    Remark::of(part)
}

// A remark is in form for a slot that takes from `least` to `most` bytes that can be printed.
pub fn in_form(remark: Remark, least: usize, most: usize) -> bool
    ensures { result ≡ in_form least most remark }
{
    remark.in_form_of(Class::Printed, least, most)
}

// Puts the text, as `text::put` puts a part, and not the zero bytes behind it.
pub fn put(buf: &mut [u8], at: usize, remark: Remark) -> usize
    ensures { (result ≡ after buf.old at (contents remark)) × (buf.new ≡ placed buf.old at (contents remark)) }
{
    text::put_text(buf, at, remark)
}
