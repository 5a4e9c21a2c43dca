// The walk over the lines behind a message's header: each is held against the rows of a table, its value is judged by its slot,
// and where the value stands is kept.
//
// Nothing here knows a message type: its table and its slots are lent as bytes. What is right stands in specs/Walk.
#![tactic(auto)]

ghost use Rattle.std.specs.Prelude.{◌≡◌, cond, ◌+◌, ◌-◌, ◌≤◌, ◌<◌, ◌^◌, eqb, length, take, drop, set};
ghost use Rattle.lines.specs.Verdicts.{then};
ghost use Rattle.layout.specs.Rows.{rows_of};
ghost use Rattle.forms.specs.Slots.{slot_at};
ghost use Rattle.walk.specs.Walk.{value_verdict, walk_of};

use layout::Place;
use lines::Verdict;

// What a walk comes to: a verdict, and where the value of each slot begins and ends.
#[derive(Clone, Copy)]
pub struct Body {
    pub verdict: Verdict,
    pub starts: [usize; stretches::SLOTS],
    pub ends: [usize; stretches::SLOTS],
}

// The first fault of the values, after one more value; slot 0 has none.
fn first_fault(slots: &[u8], fault: Verdict, slot: usize, value: &[u8], line: usize) -> Verdict
    ensures { result ≡ cond (eqb slot 0) fault (then fault (value_verdict (slot_at slots.now) (record { slot = slot; line = line; value = value.now }))) }
{
    if slot == 0 {
        return fault;
    }
    if fault.number != 0 {
        return fault;
    }
    let number = forms::judge(slots, slot, value);
    if number == 0 {
        return Verdict::PASS;
    }
    Verdict { number, line }
}

// Keeps where the value of a slot begins, behind its fixed text, and where it ends; slot 0 has none.
pub fn keep(
    slots: &[u8],
    starts: &mut [usize],
    ends: &mut [usize],
    slot: usize,
    value: usize,
    end: usize,
)
    requires { value + 16 < 2 ^ 64 }
    ensures { (starts.new ≡ cond (eqb slot 0) starts.old (set starts.old slot (value + length (slot_at slots.now slot).fixed))) × (ends.new ≡ cond (eqb slot 0) ends.old (set ends.old slot end)) }
{
    if slot == 0 {
        return;
    }
    stretches::keep(starts, slot, value + forms::fixed_text(slots, slot).len());
    stretches::keep(ends, slot, end);
}

// Takes the value of a line, from behind the text of its row to the line's end, for a slot: keeps where it stands, and answers the
// first fault of the values with it.
fn take_value(
    message: &[u8],
    slots: &[u8],
    starts: &mut [usize],
    ends: &mut [usize],
    fault: Verdict,
    slot: usize,
    value: usize,
    end: usize,
    line: usize,
) -> Verdict
    requires { (value ≤ end) × (end ≤ length message.now) }
    ensures { (result ≡ cond (eqb slot 0) fault (then fault (value_verdict (slot_at slots.now) (record { slot = slot; line = line; value = take (end - value) (drop value message.now) }))))
        × (starts.new ≡ cond (eqb slot 0) starts.old (set starts.old slot (value + length (slot_at slots.now slot).fixed)))
        × (ends.new ≡ cond (eqb slot 0) ends.old (set ends.old slot end)) }
{
    keep(slots, starts, ends, slot, value, end);
    first_fault(slots, fault, slot, &message[value..end], line)
}

// Walks the lines behind the four of the header against a table. `starts` and `ends` are the places that are kept already; a
// line that the table refuses leaves them as they were. A wrong value is answered behind the loop only, since the table may
// refuse a later line.
pub fn walk(
    message: &[u8],
    rows: &[u8],
    slots: &[u8],
    starts: [usize; stretches::SLOTS],
    ends: [usize; stretches::SLOTS],
) -> Body
    ensures { result ≡ walk_of (rows_of rows.now) (slot_at slots.now) message.now starts ends }
{
    let mut begun = starts;
    let mut ended = ends;
    let mut seen = [0u8; stretches::SLOTS];
    let mut here = Place { row: 0, back: 0 };
    let mut fault = Verdict::PASS;
    let mut at = lines::behind(message, 4);
    let mut n = 5;
    // The place goes on from line to line, and each line says where the next begins: no `for` is plainer.
    while at < message.len() {
        let line = lines::line_at(message, at);
        let stop = line.end;
        let step = layout::next_step(rows, here, &seen, &message[at..stop]);
        let number = step.number;
        if number != 0 {
            let verdict = Verdict { number, line: n };
            return Body {
                verdict,
                starts,
                ends,
            };
        }
        let slot = step.slot;
        let value = at + step.width;
        fault = take_value(
            message, slots, &mut begun, &mut ended, fault, slot, value, stop, n,
        );
        layout::mark(&mut seen, slot);
        here = step.place;
        at = line.next;
        n += 1;
    }
    Body {
        verdict: fault,
        starts: begun,
        ends: ended,
    }
}
