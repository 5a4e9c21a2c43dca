// All fields of a message of any type in one answer: of each where its value begins and where it ends.
//
// What is right stands in specs/Outline, over format's specs/Outline.
#![tactic(auto)]

ghost use Rattle.std.specs.Prelude.{◌≡◌};
ghost use Rattle.message_type.specs.Shape.{of};
ghost use Rattle.outline.specs.Outline.{slot_at, start_at, end_at, outline_of};

use message_type::MessageType;
use std::array;
use walk::Body;

// What the caller gets back of a message: the number and line of its reading, and of each field where it begins and ends.
#[derive(Clone, Copy)]
pub struct Outline<const N: usize> {
    pub number: u64,
    pub line: usize,
    pub starts: [usize; N],
    pub ends: [usize; N],
}

// The slot of a field, which has the same number; behind the last field stand two of the header's lines, and all other numbers have slot 0,
// which has no value.
fn slot_of<T: MessageType>(field: usize) -> usize
    ensures { result ≡ slot_at (of T.shape) T.line field }
{
    let last = T::fields();
    if field <= last {
        return field;
    }
    let header = T::header();
    let password = header[0] as usize;
    let line = header[T::line()] as usize;
    match field - last {
        1 => password,
        2 => line,
        _ => 0,
    }
}

// Where a field begins, by the places that a reading kept: of a value that is there the first bytes may not be the field's.
fn start_of<T: MessageType>(body: &Body, field: usize) -> usize
    ensures { result ≡ start_at (of T.shape) T.line body.now.starts body.now.ends field }
{
    let slot = slot_of::<T>(field);
    let from = stretches::at(&body.starts, slot);
    let to = stretches::at(&body.ends, slot);
    if from < to {
        from + T::beyond(field)
    } else {
        from
    }
}

// Where it ends.
fn end_of<T: MessageType>(body: &Body, field: usize) -> usize
    ensures { result ≡ end_at (of T.shape) T.line body.now.ends field }
{
    stretches::at(&body.ends, slot_of::<T>(field))
}

// Where the fields below a number stand in a message, by the places that its reading kept.
pub fn of<T: MessageType, const N: usize>(message: &[u8]) -> Outline<N>
    ensures { result ≡ outline_of (of T.shape) T.line N message.now }
{
    let body = reading::kept::<T>(message);
    Outline {
        number: body.verdict.number,
        line: body.verdict.line,
        starts: array::from_fn(|field| start_of::<T>(&body, field)),
        ends: array::from_fn(|field| end_of::<T>(&body, field)),
    }
}
