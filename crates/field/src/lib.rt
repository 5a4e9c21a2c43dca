// One field of a message of any type: where the value of a slot stands, and that part of the message.
//
// What is right stands in specs/Field, over format's specs/Field.
#![tactic(auto)]

ghost use Rattle.std.specs.Prelude.{◌≡◌};
ghost use Rattle.text.specs.Classes.{is_between};
ghost use Rattle.format.specs.Field.{front_of, field_of};
ghost use Rattle.message_type.specs.Shape.{of};
ghost use Rattle.field.specs.Field.{place_of};

use message_type::MessageType;

// What the caller gets back of a slot: the read's number, and where the value stands in the message.
#[derive(Clone, Copy)]
pub struct Stretch {
    pub number: u64,
    pub offset: usize,
    pub count: usize,
}

// The empty stretch at the message's start.
fn nowhere(number: u64) -> Stretch
    ensures { result ≡ record { number = number; offset = 0; count = 0 } }
{
    Stretch {
        number,
        offset: 0,
        count: 0,
    }
}

// How many bytes stand in front of the field of a slot: the fixed text, and what of the value is not the field's.
fn front_of<T: MessageType>(slot: usize) -> usize
    ensures { result ≡ front_of (of T.shape) slot }
{
    forms::fixed_text(T::slots(), slot).len() + T::beyond(slot)
}

// The number names a field.
fn is_named<T: MessageType>(slot: usize) -> bool
    ensures { result ≡ is_between 1 T.shape.fields slot }
{
    let last = T::fields();
    (1..=last).contains(&slot)
}

// Where the value of a slot stands in a message.
pub fn place<T: MessageType>(message: &[u8], slot: usize) -> Stretch
    ensures { result ≡ place_of (of T.shape) message.now slot }
{
    let reading = reading::read::<T>(message);
    if reading.number != 0 {
        return nowhere(reading.number);
    }
    if !is_named::<T>(slot) {
        return nowhere(0);
    }
    let found = search::find(message, T::rows(), slot, front_of::<T>(slot));
    Stretch {
        number: 0,
        offset: found.offset,
        count: found.count,
    }
}

// The value of a slot, as a part of the message; the empty part at its start where it has none.
pub fn field<T: MessageType>(message: &[u8], slot: usize) -> &[u8]
    ensures { result.now ≡ field_of (of T.shape) message.now slot }
{
    let found = place::<T>(message, slot);
    let from = found.offset;
    let to = from + found.count;
    &message[from..to]
}
