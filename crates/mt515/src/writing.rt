// The message of a trade, composed.
ghost use Rattle.std.specs.Prelude.{◌≡◌, ◌≤◌, length};
ghost use Rattle.text.specs.Copy.{placed, after};
ghost use Rattle.format.specs.Writing.{message_of};
ghost use Rattle.values.specs.Mt515.{mt515};

use crate::Mt515;
use message_type::MessageType;
use trade::Trade;

// The message of a record, into a buffer that has room for it. Its values are put into a text once, so that the record is not copied at
// each row.
pub(crate) fn compose(buf: &mut [u8], trade: Trade) -> usize
    requires { length (message_of mt515 trade) ≤ length buf.old }
    ensures { (result ≡ after buf.old 0 (message_of mt515 trade)) × (buf.new ≡ placed buf.old 0 (message_of mt515 trade)) }
{
    let mut text = [0u8; 398];
    let mut places = [0usize; 31];
    values::put_values(&mut text, &mut places, trade);
    let starts: &[usize] = &places;
    Mt515::put(buf, &text, starts, &starts[1..])
}
