// The message of a trade, composed.
ghost use Rattle.std.specs.Prelude.{◌≡◌, ◌≤◌, length};
ghost use Rattle.text.specs.Copy.{placed, after};
ghost use Rattle.format.specs.Writing.{message_of};
ghost use Rattle.pool_values.specs.Pool.{pool};

use crate::Pool;
use message_type::MessageType;
use pool_trade::PoolTrade;

// The message of a record, into a buffer that has room for it. Its values are put into a text once, so that the record is not copied at
// each row.
pub(crate) fn compose(buf: &mut [u8], trade: PoolTrade) -> usize
    requires { length (message_of pool trade) ≤ length buf.old }
    ensures { (result ≡ after buf.old 0 (message_of pool trade)) × (buf.new ≡ placed buf.old 0 (message_of pool trade)) }
{
    let mut text = [0u8; 371];
    let mut places = [0usize; 23];
    pool_values::put_values(&mut text, &mut places, trade);
    let starts: &[usize] = &places;
    Pool::put(buf, &text, starts, &starts[1..])
}
