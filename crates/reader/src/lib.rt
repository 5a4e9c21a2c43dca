// What reading any message type begins with: its lines, the header and the blocks, and then the walk over the lines behind the
// header, up to the places of the values.
//
// Nothing here knows a message type: the slots of its header's lines, its table and its slots are lent as bytes. What is right
// stands in specs/Header and specs/Take.
#![tactic(auto)]

ghost use Rattle.std.specs.Prelude.{◌≡◌, cond, ◌+◌, ◌<◌, ◌^◌, eqb, length, set};
ghost use Rattle.lines.specs.Verdicts.{refused, pass, then};
ghost use Rattle.layout.specs.Rows.{rows_of};
ghost use Rattle.forms.specs.Forms.{value_number};
ghost use Rattle.forms.specs.Slots.{slot_at};
ghost use Rattle.reader.specs.Header.{head_pass, head_starts, head_ends};
ghost use Rattle.reader.specs.Take.{placeless, take_of};

use lines::Verdict;
use walk::Body;

// A refusal, which keeps no places.
fn refuse(verdict: Verdict) -> Body
    ensures { result ≡ placeless verdict }
{
    Body {
        verdict,
        starts: [0usize; stretches::SLOTS],
        ends: [0usize; stretches::SLOTS],
    }
}

// The first fault of the header, after one line more.
fn first_fault(slots: &[u8], fault: Verdict, slot: u8, line: &[u8], n: usize) -> Verdict
    ensures { result ≡ then fault (cond (eqb (value_number (slot_at slots.now slot) line.now) 0) pass (refused 4 n)) }
{
    if fault.number != 0 {
        return fault;
    }
    if forms::judge(slots, slot as usize, line) == 0 {
        return Verdict::PASS;
    }
    Verdict { number: 4, line: n }
}

// Keeps where the value of a slot begins, behind its fixed text, and where it ends, of a line from one place to another.
// (`walk::keep` lets slot 0 go, which no row has; the header's definitions make no such difference.)
fn keep(slots: &[u8], starts: &mut [usize], ends: &mut [usize], slot: u8, at: usize, end: usize)
    requires { at + 16 < 2 ^ 64 }
    ensures { (starts.new ≡ set starts.old slot (at + length (slot_at slots.now slot).fixed)) × (ends.new ≡ set ends.old slot end) }
{
    let fixed = forms::fixed_text(slots, slot as usize).len();
    stretches::keep(starts, slot as usize, at + fixed);
    stretches::keep(ends, slot as usize, end);
}

// The header: the first fault of its lines, and the places of all their values.
fn read_header(message: &[u8], header: &[u8], slots: &[u8]) -> Body
    ensures { result ≡ record { verdict = head_pass (slot_at slots.now) header.now message.now; starts = head_starts (slot_at slots.now) header.now message.now; ends = head_ends header.now message.now } }
{
    let mut starts = [0usize; stretches::SLOTS];
    let mut ends = [0usize; stretches::SLOTS];
    let mut fault = Verdict::PASS;
    let mut at = 0;
    for (i, &slot) in header.iter().enumerate() {
        let line = lines::line_at(message, at);
        let stop = line.end;
        fault = first_fault(slots, fault, slot, &message[at..stop], i + 1);
        keep(slots, &mut starts, &mut ends, slot, at, stop);
        at = line.next;
    }
    Body {
        verdict: fault,
        starts,
        ends,
    }
}

// Takes a message: the verdict of 1 to 12, and where the value of each slot begins and ends.
pub fn take(message: &[u8], header: &[u8], rows: &[u8], slots: &[u8]) -> Body
    ensures { result ≡ take_of (rows_of rows.now) (slot_at slots.now) header.now message.now }
{
    let lines = lines::check(message);
    if lines.number != 0 {
        return refuse(lines);
    }
    let head = read_header(message, header, slots);
    let first = head.verdict;
    if first.number != 0 {
        return refuse(first);
    }
    let blocks = blocks::nesting(message);
    if blocks.number != 0 {
        return refuse(blocks);
    }
    let starts = head.starts;
    let ends = head.ends;
    walk::walk(message, rows, slots, starts, ends)
}
