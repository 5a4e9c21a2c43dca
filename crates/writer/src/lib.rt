// A message of any type put into a lent buffer: the lines of its header, and the rows of its table, with the values of its slots.
//
// Nothing here knows a message type or a record: the slots of the header's lines, the table, the slots and the values are lent, as
// `fill` takes them. What is right stands in specs/Parts, over fill's specs/Filling and specs/Runs.
#![tactic(auto)]

pub mod amounts;

ghost use Rattle.std.specs.Prelude.{◌≡◌, [], ◌∷◌};
ghost use Rattle.stretches.specs.Stretches.{stretch_of};
ghost use Rattle.forms.specs.Slots.{slot_at};
ghost use Rattle.fill.specs.Runs.{over_run, behind_run};
ghost use Rattle.fill.specs.Filling.{lent};
ghost use Rattle.writer.specs.Parts.{head_parts, message_parts};

// The line of a slot of the header.
fn put_line<'a>(
    buf: &mut [u8],
    at: usize,
    slot: u8,
    slots: &[u8],
    text: &[u8],
    starts: &'a [usize],
    ends: &'a [usize],
) -> usize
    ensures { (result ≡ behind_run buf.old at (head_parts (slot_at slots.now) (stretch_of text.now starts.now ends.now) (slot ∷ []))) × (buf.new ≡ over_run buf.old at (head_parts (slot_at slots.now) (stretch_of text.now starts.now ends.now) (slot ∷ []))) }
{
    let fixed = forms::fixed_text(slots, slot as usize);
    let value = stretches::stretch(text, starts, ends, slot as usize);
    let from = text::put(buf, at, fixed);
    let behind = text::put(buf, from, value);
    text::put(buf, behind, b"\r\n")
}

// The lines of the header, from the start of the buffer.
fn put_header<'a>(
    buf: &mut [u8],
    header: &[u8],
    slots: &[u8],
    text: &[u8],
    starts: &'a [usize],
    ends: &'a [usize],
) -> usize
    ensures { (result ≡ behind_run buf.old 0 (head_parts (slot_at slots.now) (stretch_of text.now starts.now ends.now) header.now)) × (buf.new ≡ over_run buf.old 0 (head_parts (slot_at slots.now) (stretch_of text.now starts.now ends.now) header.now)) }
{
    let mut at = 0;
    for &slot in header {
        at = put_line(buf, at, slot, slots, text, starts, ends);
    }
    at
}

// Puts a message from the start of the buffer, each part where it has room, and answers the place behind it.
pub fn put_message<'a>(
    buf: &mut [u8],
    header: &[u8],
    rows: &[u8],
    slots: &[u8],
    optional: &[u8],
    text: &[u8],
    starts: &'a [usize],
    ends: &'a [usize],
) -> usize
    ensures { (result ≡ behind_run buf.old 0 (message_parts (lent slots.now optional.now text.now starts.now ends.now) header.now rows.now)) × (buf.new ≡ over_run buf.old 0 (message_parts (lent slots.now optional.now text.now starts.now ends.now) header.now rows.now)) }
{
    let at = put_header(buf, header, slots, text, starts, ends);
    fill::put_rows(buf, at, rows, slots, optional, text, starts, ends)
}
