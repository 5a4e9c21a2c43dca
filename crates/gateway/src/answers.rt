// The MT509, the answers that come back, for a C program. include/mt509.h declares the entries.
ghost use Rattle.std.specs.Prelude.{◌≡◌, length};
ghost use Rattle.format.specs.Asking.{asked_over};
ghost use Rattle.batch.specs.Batch.{next_of};
ghost use Rattle.field.specs.Field.{place_of};
ghost use Rattle.outline.specs.Outline.{outline_of};
ghost use Rattle.plain.specs.Asking.{asking_of};
ghost use Rattle.answer_values.specs.Mt509.{mt509};
ghost use Rattle.gateway.specs.Numbers.{turn_number};

use super::turn_number;
use mt509::Mt509;

// Reads a message: where each of its fields begins and where it ends.
#[unsafe(no_mangle)]
pub extern "C" fn mt509_read(
    message: &[u8],
    starts: &mut [usize; 34],
    ends: &mut [usize; 34],
    line: &mut usize,
) -> u8
    ensures { (result ≡ (outline_of mt509 3 34 message.now).number) × (starts.new ≡ (outline_of mt509 3 34 message.now).starts) × (ends.new ≡ (outline_of mt509 3 34 message.now).ends) × (line.new ≡ (outline_of mt509 3 34 message.now).line) }
{
    let all = outline::of::<Mt509, 34>(message);
    let begun = all.starts;
    let ended = all.ends;
    *starts = begun;
    *ends = ended;
    *line = all.line;
    all.number as u8
}

// One field of a message: where it begins and how many bytes it has.
#[unsafe(no_mangle)]
pub extern "C" fn mt509_field(
    message: &[u8],
    slot: usize,
    offset: &mut usize,
    count: &mut usize,
) -> u8
    ensures { (result ≡ (place_of mt509 message.now slot).number) × (offset.new ≡ (place_of mt509 message.now slot).offset) × (count.new ≡ (place_of mt509 message.now slot).count) }
{
    let place = field::place::<Mt509>(message, slot);
    *offset = place.offset;
    *count = place.count;
    place.number as u8
}

// Writes the plain form of a message into a lent buffer.
#[unsafe(no_mangle)]
pub extern "C" fn mt509_plain(
    message: &[u8],
    out: &mut [u8],
    line: &mut usize,
    written: &mut usize,
) -> u8
    ensures { (result ≡ (asking_of mt509 message.now (length out.old)).number) × (line.new ≡ (asking_of mt509 message.now (length out.old)).line) × (written.new ≡ (asking_of mt509 message.now (length out.old)).length) × (out.new ≡ asked_over mt509 message.now out.old) }
{
    let asking = plain::plain::<Mt509>(message, out);
    *line = asking.line;
    *written = asking.length;
    asking.number as u8
}

// Takes the next message of a batch.
#[unsafe(no_mangle)]
pub extern "C" fn mt509_next(
    batch: &[u8],
    position: usize,
    line: &mut usize,
    next: &mut usize,
    number: &mut u8,
) -> u8
    ensures { (result ≡ turn_number (next_of mt509 batch.now position).turn) × (line.new ≡ (next_of mt509 batch.now position).reading.line) × (next.new ≡ (next_of mt509 batch.now position).position) × (number.new ≡ (next_of mt509 batch.now position).reading.number) }
{
    let found = batch::next::<Mt509>(batch, position);
    let turn = found.turn;
    let reading = found.reading;
    *line = reading.line;
    *next = found.position;
    *number = reading.number as u8;
    turn_number(turn)
}
