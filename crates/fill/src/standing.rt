// Which rows of a table stand: what is mandatory, what has a value, and an optional block where one of its slots has.
ghost use Rattle.std.specs.Prelude.{◌≡◌, true, ◌||◌, cond, [], ◌++◌, ◌+◌, ◌^◌, ◌<◌, eqb, drop};
ghost use Rattle.layout.specs.Rows.{row_of, rows_of};
ghost use Rattle.sheets.specs.Filled.{some};
ghost use Rattle.fill.specs.Filling.{lent, behind_at, lower, deeper, has_value, any_rows};
ghost use Rattle.fill.specs.Steps.{number};

use super::parts;
use layout::Kind;

fn lower(deep: usize) -> usize
    ensures { result ≡ lower deep }
{
    if deep == 0 { 0 } else { deep - 1 }
}

// The blocks that are open behind a row, by its kind.
pub(crate) fn deeper(kind: Kind, deep: usize) -> usize
    requires { deep + 1 < 2 ^ 64 }
    ensures { result ≡ deeper (row_of (number kind) 0 []) deep }
{
    match kind {
        Kind::Opens | Kind::MayOpen | Kind::Mark => deep + 1,
        Kind::Closes | Kind::ManyClose => lower(deep),
        _ => deep,
    }
}

// Something stands behind the text of a slot: its value or, where a slot that is not optional has none, its fixed text.
fn is_there<'a>(
    slot: u8,
    slots: &[u8],
    optional: &[u8],
    text: &[u8],
    starts: &'a [usize],
    ends: &'a [usize],
) -> bool
    ensures { result ≡ some (behind_at (lent slots.now optional.now text.now starts.now ends.now) slot) }
{
    let value = parts::value_of(text, starts, ends, slot);
    if value.len() != 0 {
        return true;
    }
    parts::front(slots, optional, slot, value.len()).len() != 0
}

// So it is for the slot of a row.
fn has_value<'a>(
    kind: Kind,
    slot: u8,
    slots: &[u8],
    optional: &[u8],
    text: &[u8],
    starts: &'a [usize],
    ends: &'a [usize],
) -> bool
    ensures { result ≡ has_value (behind_at (lent slots.now optional.now text.now starts.now ends.now)) (row_of (number kind) slot []) }
{
    match kind {
        Kind::Field | Kind::MayField | Kind::Mark => {
            is_there(slot, slots, optional, text, starts, ends)
        }
        _ => false,
    }
}

// So it is for one of the rows from a row on, up to the end of the block.
fn any_value<'a>(
    rows: &[u8],
    row: usize,
    slots: &[u8],
    optional: &[u8],
    text: &[u8],
    starts: &'a [usize],
    ends: &'a [usize],
) -> bool
    ensures { result ≡ any_rows (behind_at (lent slots.now optional.now text.now starts.now ends.now)) 1 (drop row (rows_of rows.now)) }
{
    let mut deep = 1;
    for i in row..rows.len() / 16 {
        if deep == 0 {
            return false;
        }
        let kind = Kind::of(rows[i * 16]);
        let slot = rows[i * 16 + 1];
        if has_value(kind, slot, slots, optional, text, starts, ends) {
            return true;
        }
        deep = deeper(kind, deep);
    }
    false
}

// The line of a row with a slot stands, with what stands behind its text.
pub(crate) fn has_line(kind: Kind, front: &[u8], value: &[u8]) -> bool
    ensures { result ≡ (eqb (number kind) 1 || some (front.now ++ value.now)) }
{
    match kind {
        Kind::Field => true,
        _ => value.len() != 0 || front.len() != 0,
    }
}

// A block's first or last line stands, where all blocks around it do.
pub(crate) fn is_open<'a>(
    kind: Kind,
    rows: &[u8],
    row: usize,
    slots: &[u8],
    optional: &[u8],
    text: &[u8],
    starts: &'a [usize],
    ends: &'a [usize],
) -> bool
    requires { row + 1 < 2 ^ 64 }
    ensures { result ≡ cond (eqb (number kind) 4) (any_rows (behind_at (lent slots.now optional.now text.now starts.now ends.now)) 1 (drop (row + 1) (rows_of rows.now))) true }
{
    match kind {
        Kind::MayOpen => any_value(rows, row + 1, slots, optional, text, starts, ends),
        _ => true,
    }
}
