// Writing the message of a record of any type into a buffer that the caller lends, or refusing it with a number.
//
// What is right stands in specs/Writing, over format's specs/Writing.
#![tactic(auto)]

ghost use Rattle.std.specs.Prelude.{◌≡◌, length};
ghost use Rattle.format.specs.Writing.{judge_of, written_over};
ghost use Rattle.message_type.specs.Shape.{of};
ghost use Rattle.writing.specs.Writing.{writing_of};

use message_type::MessageType;

// What a write answers: 0 and the length of the message, or the number of the refusal and 0.
#[derive(Clone, Copy)]
pub struct Writing {
    pub number: u64,
    pub length: usize,
}

// The number that a record shows by itself when it is to be written: 18, where it is not in form, or that of the rules.
pub fn judge<T: MessageType>(held: T::Record) -> u64
    ensures { result ≡ judge_of (of T.shape) held }
{
    if !T::in_form(held) {
        return 18;
    }
    T::write_rules(held).number
}

// Writes the message of a record into a lent buffer. The record is judged first and the message composed elsewhere, so that
// a refused write changes no byte.
pub fn write<T: MessageType>(held: T::Record, buf: &mut [u8]) -> Writing
    ensures { (result ≡ writing_of (of T.shape) held (length buf.old)) × (buf.new ≡ written_over (of T.shape) held buf.old) }
{
    let number = judge::<T>(held);
    if number != 0 {
        return Writing { number, length: 0 };
    }
    let mut message = [0u8; message_type::LONGEST];
    let length = T::compose(&mut message, held);
    if buf.len() < length {
        return Writing {
            number: 19,
            length: 0,
        };
    }
    text::put(buf, 0, &message[..length]);
    Writing { number: 0, length }
}
