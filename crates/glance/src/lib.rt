// A glance at a text: the message at its front is taken at one look, from front to back, without a look for the end of any line; or
// nothing is told of it.
//
// Nothing here knows a message type. What is right stands in specs/Glance, and what the steps tell each other in specs/Steps.
#![tactic(auto, unfolding(crate::specs::Glance::Says, crate::specs::Steps::HeadSays))]

ghost use Rattle.std.specs.Prelude.{◌≡◌, false, ◌≤◌, length};
ghost use Rattle.layout.specs.Rows.{rows_of};
ghost use Rattle.forms.specs.Slots.{slot_at};
ghost use Rattle.glance.specs.Glance.{Says};
ghost use Rattle.glance.specs.Steps.{Ends, Told, FieldSeen, Sees, HeadSays, Closes, BodySays};

use fitting::Fit;
use layout::{Place, Step};

// The most bytes of a message, and the line that is its last.
const LONGEST: usize = 4096;

const LAST: [u8; 1] = *b"-";

// A line that was looked for, told or not: what it does, where its value begins and its text ends, and where the next line begins, all
// from its own front. (The flag is one of the struct's, and not an enum around it, since the compiler then keeps all of it in registers.)
#[derive(Clone, Copy)]
struct Taken {
    told: bool,
    step: Step,
    value: usize,
    end: usize,
    next: usize,
}

// No line was told.
fn nothing() -> Taken
    ensures { result.told ≡ false }
{
    Taken {
        told: false,
        step: Step {
            number: 0,
            slot: 0,
            width: 0,
            place: Place { row: 0, back: 0 },
        },
        value: 0,
        end: 0,
        next: 0,
    }
}

// Where the next line begins, behind a line whose text ends at a place; not told where no line ending stands there.
#[tactic(auto, unfolding(crate::specs::Steps::Ends))]
fn behind(text: &[u8], end: usize) -> Option<usize>
    ensures { Ends text.now end result }
{
    if text.len() < end {
        return None;
    }
    match lines::ending(&text[end..])? {
        0 => None,
        over => Some(end + over),
    }
}

// A line whose text ends at a place, and whose value begins at another.
fn told(text: &[u8], step: Step, value: usize, end: usize) -> Taken
    ensures { Told text.now step value end result }
{
    let Some(next) = behind(text, end) else {
        return nothing();
    };
    Taken {
        told: true,
        step,
        value,
        end,
        next,
    }
}

// A field's line, behind the text of its row: the form of its slot says where the value ends.
fn told_field(text: &[u8], slots: &[u8], step: Step, width: usize) -> Taken
    ensures { FieldSeen (slot_at slots.now step.slot) text.now step width result }
{
    if text.len() < width {
        return nothing();
    }
    let Some(n) = measure::value(slots, step.slot, &text[width..]) else {
        return nothing();
    };
    told(text, step, width, width + n)
}

// The line at the front of a text against the rows from a place on.
fn see(text: &[u8], rows: &[u8], slots: &[u8], here: Place, seen: &[u8]) -> Taken
    ensures { Sees (rows_of rows.now) (slot_at slots.now) here seen.now text.now result }
{
    match fitting::row_for(rows, here, seen, text) {
        Some(Fit::Edge(step, width)) => told(text, step, 0, width),
        Some(Fit::Field(step, width)) => told_field(text, slots, step, width),
        None => nothing(),
    }
}

// The lines of the header, one after the other. Slot 0 is no line's.
fn take_header(
    text: &[u8],
    header: &[u8],
    slots: &[u8],
    starts: &mut [usize],
    ends: &mut [usize],
) -> Option<usize>
    ensures { HeadSays (slot_at slots.now) header.now text.now starts.old ends.old starts.new ends.new result }
{
    let mut at = 0;
    for &slot in header {
        if slot == 0 {
            return None;
        }
        let n = measure::plain(slots, slot, &text[at..])?;
        let next = behind(text, at + n)?;
        walk::keep(slots, starts, ends, slot as usize, at, at + n);
        at = next;
    }
    Some(at)
}

// The last line, from one place to another, is `-`, and what ends at a place is not too long.
fn closed(text: &[u8], last: usize, stop: usize, at: usize) -> Option<usize>
    requires { (last ≤ stop) × (stop ≤ length text.now) }
    ensures { Closes text.now last stop at result }
{
    if LONGEST < at {
        return None;
    }
    if !text::equals(&text[last..stop], &LAST) {
        return None;
    }
    Some(at)
}

// The lines behind the header, up to the table's end.
fn take_body(
    text: &[u8],
    from: usize,
    rows: &[u8],
    slots: &[u8],
    starts: &mut [usize],
    ends: &mut [usize],
) -> Option<usize>
    requires { from ≤ length text.now }
    ensures { BodySays (rows_of rows.now) (slot_at slots.now) text.now from starts.old ends.old starts.new ends.new result }
{
    let count = rows.len() / 16;
    let mut seen = [0u8; stretches::SLOTS];
    let mut here = Place { row: 0, back: 0 };
    let mut last = from;
    let mut stop = from;
    let mut at = from;
    // The step of each line says the row that the next is looked for from: no `for` is plainer.
    while here.row < count {
        let taken = see(&text[at..], rows, slots, here, &seen);
        if !taken.told {
            return None;
        }
        let slot = taken.step.slot;
        last = at;
        stop = at + taken.end;
        walk::keep(slots, starts, ends, slot, at + taken.value, stop);
        layout::mark(&mut seen, slot);
        here = taken.step.place;
        at += taken.next;
    }
    closed(text, last, stop, at)
}

// How many bytes at the front of a text are a message with nothing wrong up to its values. `starts` and `ends` then hold where the value
// of each slot begins and ends.
pub fn glance(
    text: &[u8],
    header: &[u8],
    rows: &[u8],
    slots: &[u8],
    starts: &mut [usize; stretches::SLOTS],
    ends: &mut [usize; stretches::SLOTS],
) -> Option<usize>
    ensures { Says (rows_of rows.now) (slot_at slots.now) header.now text.now starts.old ends.old starts.new ends.new result }
{
    let from = take_header(text, header, slots, starts, ends)?;
    take_body(text, from, rows, slots, starts, ends)
}
