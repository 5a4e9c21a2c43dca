// The message of an answer, composed.
ghost use Rattle.std.specs.Prelude.{◌≡◌, ◌≤◌, length};
ghost use Rattle.text.specs.Copy.{placed, after};
ghost use Rattle.format.specs.Writing.{message_of};
ghost use Rattle.answer_values.specs.Mt509.{mt509};

use crate::Mt509;
use answer::Answer;
use message_type::MessageType;

// The message of a record, into a buffer that has room for it. Its values are put into a text once, so that the record is not copied at
// each row.
pub(crate) fn compose(buf: &mut [u8], answer: Answer) -> usize
    requires { length (message_of mt509 answer) ≤ length buf.old }
    ensures { (result ≡ after buf.old 0 (message_of mt509 answer)) × (buf.new ≡ placed buf.old 0 (message_of mt509 answer)) }
{
    let mut text = [0u8; 787];
    let mut places = [0usize; 35];
    answer_values::put_values(&mut text, &mut places, answer);
    let starts: &[usize] = &places;
    Mt509::put(buf, &text, starts, &starts[1..])
}
