// The search for one field: where the value of a slot stands in a message.
//
// Nothing here knows a message type: its table is lent as bytes. What is right stands in specs/Search.
#![tactic(auto)]

ghost use Rattle.std.specs.Prelude.{◌≡◌, ◌-◌, ◌≤◌, ◌<◌, length, take, drop, set};
ghost use Rattle.lines.specs.Lines.{line_at};
ghost use Rattle.layout.specs.Rows.{rows_of};
ghost use Rattle.layout.specs.Layout.{step_of};
ghost use Rattle.search.specs.Search.{span_of};

use layout::{Place, Step};
use lines::Line;

// A part of a message: where it begins, and how many bytes it has.
#[derive(Clone, Copy)]
pub struct Span {
    pub offset: usize,
    pub count: usize,
}

impl Span {
    // The empty part at the message's start.
    const NOTHING: Span = Span {
        offset: 0,
        count: 0,
    };
}

// What is left of a value, from one place to another, without so many of its first bytes; the empty part at its end where it has
// no more.
fn rest_of(from: usize, end: usize, front: usize) -> Span
    requires { from ≤ end }
    ensures { result ≡ record { offset = end - (end - from - front); count = end - from - front } }
{
    if end - from <= front {
        return Span {
            offset: end,
            count: 0,
        };
    }
    let offset = from + front;
    Span {
        offset,
        count: end - offset,
    }
}

// A line, and what the table says of it.
#[derive(Clone, Copy)]
struct Turn {
    line: Line,
    step: Step,
}

// Holds the line that begins at a place against the table; its slot is seen from then on.
fn turn_at(message: &[u8], rows: &[u8], here: Place, seen: &mut [u8], at: usize) -> Turn
    requires { at < length message.now }
    ensures { (result.line ≡ line_at message.now at)
        × (result.step ≡ step_of (rows_of rows.now) here seen.old (take (result.line.end - at) (drop at message.now)))
        × (seen.new ≡ set seen.old result.step.slot 1) }
{
    let line = lines::line_at(message, at);
    let stop = line.end;
    let step = layout::next_step(rows, here, seen, &message[at..stop]);
    layout::mark(seen, step.slot);
    Turn { line, step }
}

// Searches the lines behind the four of the header for that of a slot, and answers its value without so many of its first bytes.
// The outer loop goes from block to block, and the inner one over the lines up to a block's next edge; each is held against the
// table, and a line that it refuses ends the search, as does the one that is taken for the slot. Each line says where the next begins:
// no `for` is plainer.
pub fn find(message: &[u8], rows: &[u8], wanted: usize, front: usize) -> Span
    ensures { result ≡ span_of (rows_of rows.now) message.now wanted front }
{
    let mut seen = [0u8; stretches::SLOTS];
    let mut here = Place { row: 0, back: 0 };
    let mut at = lines::behind(message, 4);
    'blocks: loop {
        if message.len() <= at {
            break Span::NOTHING;
        }
        while at < message.len() {
            let turn = turn_at(message, rows, here, &mut seen, at);
            if turn.step.number != 0 {
                break 'blocks Span::NOTHING;
            }
            let slot = turn.step.slot;
            let value = at + turn.step.width;
            here = turn.step.place;
            at = turn.line.next;
            if slot == 0 {
                break;
            }
            if slot == wanted {
                break 'blocks rest_of(value, turn.line.end, front);
            }
        }
    }
}
