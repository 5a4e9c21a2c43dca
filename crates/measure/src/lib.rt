// How many bytes at the front of a text are the value of a slot, told by the slot's form, without a look for the end of the line.
//
// What is right stands in specs/Measure.
#![tactic(auto, unfolding(crate::specs::Measure::FormMeasured, crate::specs::Measure::Measured, crate::specs::Measure::FixedMeasured))]

ghost use Rattle.std.specs.Prelude.{◌≡◌, true, ◌+◌, ◌≤◌, length, take, get_or};
ghost use Rattle.text.specs.Classes.{all_in};
ghost use Rattle.forms.specs.Forms.{characters, words, amount, date, moment, narrative, pool_narrative};
ghost use Rattle.forms.specs.Slots.{words_in, form_of, slot_at};
ghost use Rattle.measure.specs.Measure.{FixedMeasured, FormMeasured, Measured};

use calendar::{Date, Moment};
use forms::Kind;
use text::Class;

// How many bytes at the front of a text are of a class.
fn front(class: Class, text: &[u8]) -> usize
    ensures { (result ≤ length text.now) × (all_in class (take result text.now) ≡ true) }
{
    for (i, byte) in text.iter().enumerate() {
        if !text::in_class(class, *byte) {
            return i;
        }
    }
    text.len()
}

// All the bytes of a class at the front of a text, from a least to a most number of them; a code is so many c.
fn characters_width(class: Class, least: u8, most: u8, text: &[u8]) -> Option<usize>
    ensures { FormMeasured (characters class least most) text.now result }
{
    let n = front(class, text);
    if n < usize::from(least) {
        return None;
    }
    if usize::from(most) < n {
        return None;
    }
    Some(n)
}

// The first of the words of some lines that a text begins with.
fn word_width(slots: &[u8], first: u8, count: u8, text: &[u8]) -> Option<usize>
    ensures { FormMeasured (words (words_in slots.now first count)) text.now result }
{
    for k in 0..usize::from(count) {
        let word = forms::fixed_text(slots, usize::from(first) + k);
        if text::begins_with(text, word) {
            return Some(word.len());
        }
    }
    None
}

// An amount is all the digits at the front of a text, a comma, and all the digits behind it.
fn amount_width(text: &[u8]) -> Option<usize>
    ensures { FormMeasured amount text.now result }
{
    let whole = front(Class::Digit, text);
    if whole < 1 {
        return None;
    }
    if text.len() <= whole {
        return None;
    }
    if text[whole] != b',' {
        return None;
    }
    let tail = front(Class::Digit, &text[whole + 1..]);
    if 14 < whole + tail {
        return None;
    }
    Some(whole + 1 + tail)
}

fn date_width(text: &[u8]) -> Option<usize>
    ensures { FormMeasured date text.now result }
{
    if text.len() < 8 {
        return None;
    }
    Date::read(&text[..8])?;
    Some(8)
}

fn moment_width(text: &[u8]) -> Option<usize>
    ensures { FormMeasured moment text.now result }
{
    if text.len() < 14 {
        return None;
    }
    Moment::read(&text[..14])?;
    Some(14)
}

// The place behind a part of a narrative, of `width` bytes that begin with a key; the same place where there is no such part. Nothing
// more is said: whether these parts make a narrative is asked of all of them together.
fn behind_part(text: &[u8], at: usize, key: &[u8], width: usize) -> usize
    requires { at + width ≤ 36 }
    ensures { result ≤ at + width }
{
    if text.len() < at {
        return at;
    }
    if text::begins_with(&text[at..], key) {
        at + width
    } else {
        at
    }
}

// A narrative is nine bytes, and then a period and a reason where their keys stand.
fn narrative_width(text: &[u8]) -> Option<usize>
    ensures { FormMeasured narrative text.now result }
{
    let period = behind_part(text, 9, b"/GUPP", 6);
    let n = behind_part(text, period, b"/DKRS", 9);
    if text.len() < n {
        return None;
    }
    if forms::narrative::is_narrative(&text[..n]) {
        Some(n)
    } else {
        None
    }
}

// That of a pool netting member is nine bytes, and then CDRY, a delivery date and a reason where their keys stand.
fn pool_width(text: &[u8]) -> Option<usize>
    ensures { FormMeasured pool_narrative text.now result }
{
    let cdr = behind_part(text, 9, b"/CDRY", 5);
    let delivery = behind_part(text, cdr, b"/DDTE", 13);
    let n = behind_part(text, delivery, b"/DKRS", 9);
    if text.len() < n {
        return None;
    }
    if forms::pool::number(&text[..n]) == 0 {
        Some(n)
    } else {
        None
    }
}

// What follows the fixed text of a slot, by the slot's line.
fn form_width(slots: &[u8], line: &[u8], text: &[u8]) -> Option<usize>
    requires { length line.now ≡ 20 }
    ensures { FormMeasured (form_of slots.now (get_or line.now 0 0) (get_or line.now 1 0) (get_or line.now 2 0)) text.now result }
{
    let least = line[1];
    let most = line[2];
    match Kind::of(line[0]) {
        Kind::Nothing => Some(0),
        Kind::Codes => characters_width(Class::C, least, most, text),
        Kind::Words => word_width(slots, least, most, text),
        Kind::Amount => amount_width(text),
        Kind::Date => date_width(text),
        Kind::Moment => moment_width(text),
        Kind::Narrative => narrative_width(text),
        Kind::PoolNarrative => pool_width(text),
        Kind::Hyphened => characters_width(Class::Hyphened, least, most, text),
        Kind::Printed => characters_width(Class::Printed, least, most, text),
        Kind::Other => None,
    }
}

// The fixed text of a slot's line at the front of a text. A line whose text is said to be longer than it can be tells nothing.
fn fixed_width(line: &[u8], text: &[u8]) -> Option<usize>
    requires { length line.now ≡ 20 }
    ensures { FixedMeasured line.now text.now result }
{
    let len = usize::from(line[3]);
    if 16 < len {
        return None;
    }
    if text::begins_with(text, &line[4..4 + len]) {
        Some(len)
    } else {
        None
    }
}

// What follows the fixed text where the form is a code or nothing, as those of a header's lines are.
fn plain_width(slots: &[u8], line: &[u8], text: &[u8]) -> Option<usize>
    requires { length line.now ≡ 20 }
    ensures { FormMeasured (form_of slots.now (get_or line.now 0 0) (get_or line.now 1 0) (get_or line.now 2 0)) text.now result }
{
    let least = line[1];
    let most = line[2];
    match Kind::of(line[0]) {
        Kind::Nothing => Some(0),
        Kind::Codes => characters_width(Class::C, least, most, text),
        _ => None,
    }
}

// How many bytes at the front of a text are a value of a slot, its fixed text with it. The number of a slot is a byte wherever one is
// held, so that nothing is told of a slot behind 255.
pub fn value(slots: &[u8], slot: usize, text: &[u8]) -> Option<usize>
    ensures { Measured (slot_at slots.now slot) text.now result }
{
    if 255 < slot {
        return None;
    }
    let at = slot * 20;
    if slots.len() < at + 20 {
        return None;
    }
    let line = &slots[at..at + 20];
    let len = fixed_width(line, text)?;
    let n = form_width(slots, line, &text[len..])?;
    Some(len + n)
}

// The same of a slot that takes a code or nothing, as those of a header's lines do; of another nothing is told. Being short it is laid
// down where it is called, and so is `value`, which then has one caller.
pub fn plain(slots: &[u8], slot: u8, text: &[u8]) -> Option<usize>
    ensures { Measured (slot_at slots.now slot) text.now result }
{
    let at = usize::from(slot) * 20;
    if slots.len() < at + 20 {
        return None;
    }
    let line = &slots[at..at + 20];
    let len = fixed_width(line, text)?;
    let n = plain_width(slots, line, &text[len..])?;
    Some(len + n)
}
