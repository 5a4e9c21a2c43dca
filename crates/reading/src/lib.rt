// Reading a message of any type into its record, or refusing it with a number and a line.
//
// What is right stands in specs/Reading, over format's specs/Reading and specs/Kept.
#![tactic(auto)]

ghost use Rattle.std.specs.Prelude.{◌≡◌, replicate};
ghost use Rattle.stretches.specs.Stretches.{slot_count, stretch_of};
ghost use Rattle.sheets.specs.Trees.{table_of};
ghost use Rattle.glance.specs.Glance.{Says};
ghost use Rattle.format.specs.Reading.{read_of};
ghost use Rattle.format.specs.Kept.{taken, kept_of};
ghost use Rattle.message_type.specs.Shape.{of};
ghost use Rattle.reading.specs.Reading.{refusal, judged, front_of};

use format::Reading;
use lines::Verdict;
use message_type::MessageType;
use walk::Body;

// What stands at the front of a text: how its piece is read, and how many bytes the piece has.
#[derive(Clone, Copy)]
pub struct Front<H> {
    pub reading: Reading<H>,
    pub length: usize,
}

// Takes a message up to its values, by the passes: the verdict of 1 to 12, and where the value of each slot begins and ends.
pub fn by_passes<T: MessageType>(message: &[u8]) -> Body
    ensures { result ≡ taken (of T.shape) message.now }
{
    reader::take(message, T::header(), T::rows(), T::slots())
}

// Takes the message at the front of a text at one look: how many bytes it has, and where the value of each slot begins and ends; or nothing
// is told.
pub fn at_a_look<T: MessageType>(
    text: &[u8],
    starts: &mut [usize; stretches::SLOTS],
    ends: &mut [usize; stretches::SLOTS],
) -> Option<usize>
    ensures { Says (table_of T.shape.tree) T.shape.slot_of T.shape.header text.now starts.old ends.old starts.new ends.new result }
{
    glance::glance(text, T::header(), T::rows(), T::slots(), starts, ends)
}

fn refuse<T: MessageType>(verdict: Verdict) -> Reading<T::Record>
    ensures { result ≡ refusal (of T.shape) verdict }
{
    Reading {
        number: verdict.number,
        line: verdict.line,
        held: T::blank(),
    }
}

// The record of a message with nothing wrong up to its values, judged by the rules of line 0.
fn judge<'a, 'b, T: MessageType>(
    message: &'a [u8],
    starts: &'b [usize; stretches::SLOTS],
    ends: &'b [usize; stretches::SLOTS],
) -> Reading<T::Record>
    ensures { result ≡ judged (of T.shape) (stretch_of message.now starts.now ends.now) }
{
    let held = T::gather(message, starts, ends);
    let rules = T::read_rules(message, starts, ends, held);
    if rules.number != 0 {
        return refuse::<T>(rules);
    }
    Reading {
        number: rules.number,
        line: rules.line,
        held,
    }
}

// Takes a message into places that are all 0: at one look where that takes all of it, and else by the passes in their order.
fn take<T: MessageType>(
    message: &[u8],
    starts: &mut [usize; stretches::SLOTS],
    ends: &mut [usize; stretches::SLOTS],
) -> Verdict
    requires { (starts.old ≡ replicate slot_count 0) × (ends.old ≡ replicate slot_count 0) }
    ensures { record { verdict = result; starts = starts.new; ends = ends.new } ≡ taken (of T.shape) message.now }
{
    if let Some(n) = at_a_look::<T>(message, starts, ends) {
        if n == message.len() {
            return Verdict::PASS;
        }
    }
    let body = by_passes::<T>(message);
    let begun = body.starts;
    let ended = body.ends;
    *starts = begun;
    *ends = ended;
    body.verdict
}

// Reads a message by what was taken of it.
fn read_taken<'a, 'b, T: MessageType>(
    message: &'a [u8],
    verdict: Verdict,
    starts: &'b [usize; stretches::SLOTS],
    ends: &'b [usize; stretches::SLOTS],
) -> Reading<T::Record>
    requires { record { verdict = verdict; starts = starts.now; ends = ends.now } ≡ taken (of T.shape) message.now }
    ensures { result ≡ read_of (of T.shape) message.now }
{
    if verdict.number != 0 {
        return refuse::<T>(verdict);
    }
    judge::<T>(message, starts, ends)
}

// Reads a message.
pub fn read<T: MessageType>(message: &[u8]) -> Reading<T::Record>
    ensures { result ≡ read_of (of T.shape) message.now }
{
    let mut starts = [0usize; stretches::SLOTS];
    let mut ends = [0usize; stretches::SLOTS];
    let verdict = take::<T>(message, &mut starts, &mut ends);
    read_taken::<T>(message, verdict, &starts, &ends)
}

// Reads the piece at the front of a text: at one look where that takes it, and else it is cut and goes by the passes.
pub fn read_front<T: MessageType>(text: &[u8]) -> Front<T::Record>
    ensures { result ≡ front_of (of T.shape) text.now }
{
    let mut starts = [0usize; stretches::SLOTS];
    let mut ends = [0usize; stretches::SLOTS];
    if let Some(n) = at_a_look::<T>(text, &mut starts, &mut ends) {
        return Front {
            reading: judge::<T>(&text[..n], &starts, &ends),
            length: n,
        };
    }
    let end = pieces::piece_end(text, 0);
    let piece = &text[..end];
    let body = by_passes::<T>(piece);
    let begun = body.starts;
    let ended = body.ends;
    Front {
        reading: read_taken::<T>(piece, body.verdict, &begun, &ended),
        length: end,
    }
}

// Where the values of an accepted message stand, with the number and line of its reading; a refusal keeps no places.
pub fn kept<T: MessageType>(message: &[u8]) -> Body
    ensures { result ≡ kept_of (of T.shape) message.now }
{
    let mut starts = [0usize; stretches::SLOTS];
    let mut ends = [0usize; stretches::SLOTS];
    let verdict = take::<T>(message, &mut starts, &mut ends);
    let reading = read_taken::<T>(message, verdict, &starts, &ends);
    if reading.number == 0 {
        return Body {
            verdict,
            starts,
            ends,
        };
    }
    Body {
        verdict: Verdict {
            number: reading.number,
            line: reading.line,
        },
        starts: [0usize; stretches::SLOTS],
        ends: [0usize; stretches::SLOTS],
    }
}
