// The MT515 of pool netting for a C program. include/pool.h declares the entries.
ghost use Rattle.std.specs.Prelude.{◌≡◌, length};
ghost use Rattle.format.specs.Asking.{asked_over};
ghost use Rattle.batch.specs.Batch.{next_of};
ghost use Rattle.field.specs.Field.{place_of};
ghost use Rattle.outline.specs.Outline.{outline_of};
ghost use Rattle.plain.specs.Asking.{asking_of};
ghost use Rattle.pool_values.specs.Pool.{pool};
ghost use Rattle.gateway.specs.Numbers.{turn_number};

use super::turn_number;
use pool::Pool;

// Reads a message: where each of its fields begins and where it ends.
#[unsafe(no_mangle)]
pub extern "C" fn pool_read(
    message: &[u8],
    starts: &mut [usize; 22],
    ends: &mut [usize; 22],
    line: &mut usize,
) -> u8
    ensures { (result ≡ (outline_of pool 1 22 message.now).number) × (starts.new ≡ (outline_of pool 1 22 message.now).starts) × (ends.new ≡ (outline_of pool 1 22 message.now).ends) × (line.new ≡ (outline_of pool 1 22 message.now).line) }
{
    let all = outline::of::<Pool, 22>(message);
    let begun = all.starts;
    let ended = all.ends;
    *starts = begun;
    *ends = ended;
    *line = all.line;
    all.number as u8
}

// One field of a message: where it begins and how many bytes it has.
#[unsafe(no_mangle)]
pub extern "C" fn pool_field(
    message: &[u8],
    slot: usize,
    offset: &mut usize,
    count: &mut usize,
) -> u8
    ensures { (result ≡ (place_of pool message.now slot).number) × (offset.new ≡ (place_of pool message.now slot).offset) × (count.new ≡ (place_of pool message.now slot).count) }
{
    let place = field::place::<Pool>(message, slot);
    *offset = place.offset;
    *count = place.count;
    place.number as u8
}

// Writes the plain form of a message into a lent buffer.
#[unsafe(no_mangle)]
pub extern "C" fn pool_plain(
    message: &[u8],
    out: &mut [u8],
    line: &mut usize,
    written: &mut usize,
) -> u8
    ensures { (result ≡ (asking_of pool message.now (length out.old)).number) × (line.new ≡ (asking_of pool message.now (length out.old)).line) × (written.new ≡ (asking_of pool message.now (length out.old)).length) × (out.new ≡ asked_over pool message.now out.old) }
{
    let asking = plain::plain::<Pool>(message, out);
    *line = asking.line;
    *written = asking.length;
    asking.number as u8
}

// Takes the next message of a batch.
#[unsafe(no_mangle)]
pub extern "C" fn pool_next(
    batch: &[u8],
    position: usize,
    line: &mut usize,
    next: &mut usize,
    number: &mut u8,
) -> u8
    ensures { (result ≡ turn_number (next_of pool batch.now position).turn) × (line.new ≡ (next_of pool batch.now position).reading.line) × (next.new ≡ (next_of pool batch.now position).position) × (number.new ≡ (next_of pool batch.now position).reading.number) }
{
    let answer = batch::next::<Pool>(batch, position);
    let turn = answer.turn;
    let reading = answer.reading;
    *line = reading.line;
    *next = answer.position;
    *number = reading.number as u8;
    turn_number(turn)
}
