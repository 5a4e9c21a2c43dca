// A batch of messages of any type, message by message: from a position the piece that begins there is read, and the position behind it is
// answered.
//
// What is right stands in specs/Batch.
#![tactic(auto)]

ghost use Rattle.std.specs.Prelude.{◌≡◌};
ghost use Rattle.message_type.specs.Shape.{of};
ghost use Rattle.batch.specs.Batch.{blank_reading, next_of};

use format::Reading;
use message_type::MessageType;
use pieces::Turn;

// What the desk gets back of a position: what stands there, how it is read, and the position to go on from.
#[derive(Clone, Copy)]
pub struct Found<H> {
    pub turn: Turn,
    pub reading: Reading<H>,
    pub position: usize,
}

// What is said where no message stands.
fn without_message<T: MessageType>(number: u64) -> Reading<T::Record>
    ensures { result ≡ blank_reading (of T.shape) number }
{
    Reading {
        number,
        line: 0,
        held: T::blank(),
    }
}

// Takes the next message of a batch.
pub fn next<T: MessageType>(batch: &[u8], position: usize) -> Found<T::Record>
    ensures { result ≡ next_of (of T.shape) batch.now position }
{
    // What is answered is returned from each way: as the value of the match it is copied once more.
    let left = match batch.get(position..) {
        None => {
            return Found {
                turn: Turn::Past,
                reading: without_message::<T>(21),
                position,
            };
        }
        Some([]) => {
            return Found {
                turn: Turn::Done,
                reading: without_message::<T>(0),
                position,
            };
        }
        Some(left) => left,
    };
    let front = reading::read_front::<T>(left);
    let end = position + front.length;
    Found {
        turn: Turn::Message,
        reading: front.reading,
        position: end,
    }
}
