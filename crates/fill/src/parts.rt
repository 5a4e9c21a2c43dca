// What a row puts that stands: the parts of its lines.
ghost use Rattle.std.specs.Prelude.{◌≡◌, ◌&&◌, eqb};
ghost use Rattle.stretches.specs.Stretches.{stretch_of};
ghost use Rattle.fill.specs.Runs.{over_run, behind_run};
ghost use Rattle.fill.specs.Filling.{is_any, fixed_in, with_ending};
ghost use Rattle.fill.specs.Steps.{line_parts};

// The value of a slot.
pub(crate) fn value_of<'a, 'b>(
    text: &'a [u8],
    starts: &'b [usize],
    ends: &'b [usize],
    slot: u8,
) -> &'a [u8]
    ensures { result.now ≡ stretch_of text.now starts.now ends.now slot }
{
    stretches::stretch(text, starts, ends, slot as usize)
}

// A slot is optional, and its value has no bytes.
fn is_absent(optional: &[u8], slot: u8, length: usize) -> bool
    ensures { result ≡ (is_any optional.now slot && eqb length 0) }
{
    if length != 0 {
        return false;
    }
    text::find(optional, slot) < optional.len()
}

// The fixed text in front of a value of so many bytes; nothing where an optional slot has none.
pub(crate) fn front<'a, 'b>(
    slots: &'a [u8],
    optional: &'b [u8],
    slot: u8,
    length: usize,
) -> &'a [u8]
    ensures { result.now ≡ fixed_in slots.now optional.now slot length }
{
    if is_absent(optional, slot, length) {
        return &slots[..0];
    }
    forms::fixed_text(slots, slot as usize)
}

// The first or last line of a block.
pub(crate) fn put_edge(buf: &mut [u8], at: usize, key: &[u8]) -> usize
    ensures { (result ≡ behind_run buf.old at (with_ending key.now)) × (buf.new ≡ over_run buf.old at (with_ending key.now)) }
{
    let end = text::put(buf, at, key);
    text::put(buf, end, b"\r\n")
}

// The line of a slot: its text, the fixed text and the value.
pub(crate) fn put_line(buf: &mut [u8], at: usize, key: &[u8], front: &[u8], value: &[u8]) -> usize
    ensures { (result ≡ behind_run buf.old at (line_parts key.now front.now value.now)) × (buf.new ≡ over_run buf.old at (line_parts key.now front.now value.now)) }
{
    let fixed = text::put(buf, at, key);
    let from = text::put(buf, fixed, front);
    let behind = text::put(buf, from, value);
    text::put(buf, behind, b"\r\n")
}
