// The MT515 for a C program: an entry for each thing that may be asked, on lent bytes and numbers. include/mt515.h declares
// them.
//
// What is right stands in the specs of the functions that the entries call; an entry only hands their answer out.
#![tactic(auto)]

mod answers;
mod netting;

ghost use Rattle.std.specs.Prelude.{◌≡◌, length};
ghost use Rattle.format.specs.Reading.{read_of};
ghost use Rattle.format.specs.Writing.{written_over};
ghost use Rattle.format.specs.Asking.{asked_over};
ghost use Rattle.batch.specs.Batch.{next_of};
ghost use Rattle.field.specs.Field.{place_of};
ghost use Rattle.outline.specs.Outline.{outline_of};
ghost use Rattle.writing.specs.Writing.{writing_of};
ghost use Rattle.plain.specs.Asking.{asking_of};
ghost use Rattle.values.specs.Mt515.{mt515};
ghost use Rattle.packed.specs.Packed.{packed_of};
ghost use Rattle.unpacked.specs.Unpacked.{record_in};
ghost use Rattle.gateway.specs.Numbers.{turn_number};

use mt515::Mt515;
use pieces::Turn;

// Reads a message.
#[unsafe(no_mangle)]
pub extern "C" fn mt515_read(message: &[u8], bytes: &mut [u8; 375], line: &mut usize) -> u8
    ensures { (result ≡ (read_of mt515 message.now).number) × (bytes.new ≡ packed_of (read_of mt515 message.now).held) × (line.new ≡ (read_of mt515 message.now).line) }
{
    let reading = reading::read::<Mt515>(message);
    packed::pack(reading.held, bytes);
    *line = reading.line;
    reading.number as u8
}

// One field of a message: where it begins and how many bytes it has.
#[unsafe(no_mangle)]
pub extern "C" fn mt515_field(
    message: &[u8],
    slot: usize,
    offset: &mut usize,
    count: &mut usize,
) -> u8
    ensures { (result ≡ (place_of mt515 message.now slot).number) × (offset.new ≡ (place_of mt515 message.now slot).offset) × (count.new ≡ (place_of mt515 message.now slot).count) }
{
    let place = field::place::<Mt515>(message, slot);
    *offset = place.offset;
    *count = place.count;
    place.number as u8
}

// All fields of a message: where each begins and where it ends.
#[unsafe(no_mangle)]
pub extern "C" fn mt515_places(
    message: &[u8],
    starts: &mut [usize; 24],
    ends: &mut [usize; 24],
    line: &mut usize,
) -> u8
    ensures { (result ≡ (outline_of mt515 1 24 message.now).number) × (starts.new ≡ (outline_of mt515 1 24 message.now).starts) × (ends.new ≡ (outline_of mt515 1 24 message.now).ends) × (line.new ≡ (outline_of mt515 1 24 message.now).line) }
{
    let all = outline::of::<Mt515, 24>(message);
    let begun = all.starts;
    let ended = all.ends;
    *starts = begun;
    *ends = ended;
    *line = all.line;
    all.number as u8
}

// Writes the plain form of a message into a lent buffer.
#[unsafe(no_mangle)]
pub extern "C" fn mt515_plain(
    message: &[u8],
    out: &mut [u8],
    line: &mut usize,
    written: &mut usize,
) -> u8
    ensures { (result ≡ (asking_of mt515 message.now (length out.old)).number) × (line.new ≡ (asking_of mt515 message.now (length out.old)).line) × (written.new ≡ (asking_of mt515 message.now (length out.old)).length) × (out.new ≡ asked_over mt515 message.now out.old) }
{
    let asking = plain::plain::<Mt515>(message, out);
    *line = asking.line;
    *written = asking.length;
    asking.number as u8
}

// Writes the message of a record into a lent buffer.
#[unsafe(no_mangle)]
pub extern "C" fn mt515_write(bytes: &[u8; 375], out: &mut [u8], written: &mut usize) -> u8
    ensures { (result ≡ (writing_of mt515 (record_in bytes.now) (length out.old)).number) × (written.new ≡ (writing_of mt515 (record_in bytes.now) (length out.old)).length) × (out.new ≡ written_over mt515 (record_in bytes.now) out.old) }
{
    let writing = unpacked::write(bytes, out);
    *written = writing.length;
    writing.number as u8
}

// The number of what stands at a position of a batch.
fn turn_number(turn: Turn) -> u8
    ensures { result ≡ turn_number turn }
{
    match turn {
        Turn::Message => 0,
        Turn::Done => 1,
        Turn::Past => 2,
    }
}

// Takes the next message of a batch.
#[unsafe(no_mangle)]
pub extern "C" fn mt515_next(
    batch: &[u8],
    position: usize,
    bytes: &mut [u8; 375],
    line: &mut usize,
    next: &mut usize,
    number: &mut u8,
) -> u8
    ensures { (result ≡ turn_number (next_of mt515 batch.now position).turn) × (bytes.new ≡ packed_of (next_of mt515 batch.now position).reading.held) × (line.new ≡ (next_of mt515 batch.now position).reading.line) × (next.new ≡ (next_of mt515 batch.now position).position) × (number.new ≡ (next_of mt515 batch.now position).reading.number) }
{
    let answer = batch::next::<Mt515>(batch, position);
    let turn = answer.turn;
    let reading = answer.reading;
    packed::pack(reading.held, bytes);
    *line = reading.line;
    *next = answer.position;
    *number = reading.number as u8;
    turn_number(turn)
}
