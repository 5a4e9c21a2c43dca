// The values of lines: each is judged by the fixed text and the form of its slot.
//
// Nothing here knows a slot: a message type hands its slots over as bytes. What is right stands in specs/Forms and specs/Slots,
// over specs/Words, specs/Narrative and specs/Pool.
#![tactic(auto)]

pub mod narrative;
pub mod pool;

ghost use Rattle.std.specs.Prelude.{◌≡◌, [], ◌+◌, ◌*◌, length, get_or};
ghost use Rattle.forms.specs.Forms.{characters, word_at, unless, form_number, value_number};
ghost use Rattle.forms.specs.Slots.{words_of, words_in, kind_of, form_of, slot_at};

use amount::Amount;
use calendar::{Date, Moment};
use text::Class;

// The kind of a form, as the byte of a slot's line numbers it from 0; any other number is a form that takes any text.
#[derive(Clone, Copy, PartialEq, Eq)]
pub enum Kind {
    Nothing,
    Codes,
    Words,
    Amount,
    Date,
    Moment,
    Narrative,
    PoolNarrative,
    Hyphened,
    Printed,
    Other,
}

impl Kind {
    pub fn of(byte: u8) -> Kind
        ensures { result ≡ kind_of byte }
    {
        match byte {
            0 => Kind::Nothing,
            1 => Kind::Codes,
            2 => Kind::Words,
            3 => Kind::Amount,
            4 => Kind::Date,
            5 => Kind::Moment,
            6 => Kind::Narrative,
            7 => Kind::PoolNarrative,
            8 => Kind::Hyphened,
            9 => Kind::Printed,
            _ => Kind::Other,
        }
    }
}

// The place of a value among words of four letters that stand one behind the other; their number where it is none of them.
pub fn word_at(words: &[u8], value: &[u8]) -> usize
    ensures { result ≡ word_at (words_of words.now) value.now }
{
    let count = words.len() / 4;
    // By place: over `chunks_exact` the proof did not close, since a loop knows such parts by the iterator's own state alone.
    for i in 0..count {
        let at = i * 4;
        if text::equals(value, &words[at..at + 4]) {
            return i;
        }
    }
    count
}

fn unless(good: bool) -> u64
    ensures { result ≡ unless good }
{
    if good { 0 } else { 10 }
}

// The fixed text of a slot, which is the text of its line; a word behind the slots is the text of its line too.
pub fn fixed_text(slots: &[u8], slot: usize) -> &[u8]
    ensures { result.now ≡ (slot_at slots.now slot).fixed }
{
    if slots.len() / 20 <= slot {
        return &slots[..0];
    }
    let at = slot * 20;
    let line = &slots[at..at + 20];
    let len = text::remainder(line[3], 17) as usize;
    &line[4..4 + len]
}

// The place of a value among the words of some lines; their number where it is none of them.
pub fn word_in(slots: &[u8], first: u8, count: u8, value: &[u8]) -> usize
    ensures { result ≡ word_at (words_in slots.now first count) value.now }
{
    let from = usize::from(first);
    let lines = usize::from(count);
    for k in 0..lines {
        if text::equals(value, fixed_text(slots, from + k)) {
            return k;
        }
    }
    lines
}

// From a least to a most number of bytes of a class.
fn judge_characters(class: Class, least: u8, most: u8, value: &[u8]) -> u64
    ensures { result ≡ form_number (characters class least most) value.now }
{
    unless(text::is_all(class, value, usize::from(least), usize::from(most)))
}

// What follows the fixed text of a slot, by the slot's line.
fn judge_form(slots: &[u8], line: &[u8], value: &[u8]) -> u64
    requires { length line.now ≡ 20 }
    ensures { result ≡ form_number (form_of slots.now (get_or line.now 0 0) (get_or line.now 1 0) (get_or line.now 2 0)) value.now }
{
    let least = line[1];
    let most = line[2];
    match Kind::of(line[0]) {
        Kind::Nothing => unless(value.len() == 0),
        Kind::Codes => unless(text::is_code(value, usize::from(least), usize::from(most))),
        Kind::Words => unless(word_in(slots, least, most, value) < usize::from(most)),
        Kind::Amount => amount::number(Amount::read(value)),
        Kind::Date => calendar::number(Date::read(value)),
        Kind::Moment => calendar::number(Moment::read(value)),
        Kind::Narrative => unless(narrative::is_narrative(value)),
        Kind::PoolNarrative => pool::number(value),
        Kind::Hyphened => judge_characters(Class::Hyphened, least, most, value),
        Kind::Printed => judge_characters(Class::Printed, least, most, value),
        Kind::Other => 0,
    }
}

// The number of all that follows a slot's qualifier.
pub fn judge(slots: &[u8], slot: usize, value: &[u8]) -> u64
    ensures { result ≡ value_number (slot_at slots.now slot) value.now }
{
    let fixed = fixed_text(slots, slot);
    if !text::begins_with(value, fixed) {
        return 10;
    }
    if slots.len() / 20 <= slot {
        return 0;
    }
    let at = slot * 20;
    let from = fixed.len();
    judge_form(slots, &slots[at..at + 20], &value[from..])
}
