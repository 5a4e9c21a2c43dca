// The plain form of a message of any type, asked for into a buffer that the caller lends.
//
// What is right stands in specs/Asking, over format's specs/Asking.
#![tactic(auto)]

ghost use Rattle.std.specs.Prelude.{◌≡◌, ◌≤◌, length};
ghost use Rattle.text.specs.Copy.{placed, after};
ghost use Rattle.stretches.specs.Stretches.{stretch_of};
ghost use Rattle.fill.specs.Runs.{over_run, behind_run};
ghost use Rattle.format.specs.Reading.{verdict_of};
ghost use Rattle.format.specs.Kept.{kept_of};
ghost use Rattle.format.specs.Plain.{plain_of};
ghost use Rattle.format.specs.Asking.{asked_over};
ghost use Rattle.format.proofs.Moved.{Moves};
ghost use Rattle.writer.specs.Parts.{parts_for};
ghost use Rattle.message_type.specs.Shape.{of};
ghost use Rattle.plain.specs.Asking.{asking_of};

use message_type::MessageType;
use walk::Body;

// What asking for a plain form answers: 0 and the length of the plain form, or the number and line of the refusal and 0.
#[derive(Clone, Copy)]
pub struct Asking {
    pub number: u64,
    pub line: usize,
    pub length: usize,
}

// Moves the places of each amount in to its shortest text.
fn move_amounts<T: MessageType>(message: &[u8], starts: &mut [usize], ends: &mut [usize])
    ensures { Moves message.now T.amounts starts.old ends.old starts.new ends.new }
{
    for slot in T::amounts() {
        writer::amounts::move_in(message, starts, ends, usize::from(*slot));
    }
}

// Puts a message with lent values, a text and for each slot where its value begins and ends, from the start of the buffer.
pub fn put<'a, T: MessageType>(
    buf: &mut [u8],
    text: &[u8],
    starts: &'a [usize],
    ends: &'a [usize],
) -> usize
    ensures { (result ≡ behind_run buf.old 0 (parts_for (of T.shape) (stretch_of text.now starts.now ends.now))) × (buf.new ≡ over_run buf.old 0 (parts_for (of T.shape) (stretch_of text.now starts.now ends.now))) }
{
    T::put(buf, text, starts, ends)
}

// The plain form of an accepted message, into a buffer that has room for it. It is put from the message's own stretches, of which those
// of the amounts are moved in.
fn compose<T: MessageType>(buf: &mut [u8], message: &[u8], body: Body) -> usize
    requires { (body ≡ kept_of (of T.shape) message.now) × ((verdict_of (of T.shape) message.now).number ≡ 0) × (length (plain_of (of T.shape) message.now) ≤ length buf.old) }
    ensures { (result ≡ after buf.old 0 (plain_of (of T.shape) message.now)) × (buf.new ≡ placed buf.old 0 (plain_of (of T.shape) message.now)) }
{
    let mut starts = body.starts;
    let mut ends = body.ends;
    move_amounts::<T>(message, &mut starts, &mut ends);
    put::<T>(buf, message, &starts, &ends)
}

// Writes the plain form of a message into a lent buffer: the message is read, and the plain form of an accepted one composed elsewhere,
// so that a refusal changes no byte.
pub fn plain<T: MessageType>(message: &[u8], buf: &mut [u8]) -> Asking
    ensures { (result ≡ asking_of (of T.shape) message.now (length buf.old)) × (buf.new ≡ asked_over (of T.shape) message.now buf.old) }
{
    let body = reading::kept::<T>(message);
    let verdict = body.verdict;
    if verdict.number != 0 {
        return Asking {
            number: verdict.number,
            line: verdict.line,
            length: 0,
        };
    }
    let mut out = [0u8; message_type::LONGEST];
    let length = compose::<T>(&mut out, message, body);
    if buf.len() < length {
        return Asking {
            number: 19,
            line: 0,
            length: 0,
        };
    }
    text::put(buf, 0, &out[..length]);
    Asking {
        number: 0,
        line: 0,
        length,
    }
}
