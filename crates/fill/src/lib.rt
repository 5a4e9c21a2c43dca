// The rows of any table put into a lent buffer, with the values of its slots.
//
// The values are lent as reading keeps them: a text, and for each slot where its value begins and ends. With them a message type
// lends the bytes of its table and of its slots, and the numbers of the slots that are optional; nothing here knows a record. All
// are parameters wherever a slot is looked up: a clause would have to say of each field of a struct of references at which moment it
// is meant, which is no plainer. What is right stands in specs/Filling and specs/Runs; specs/Steps serves the steps in between.
#![tactic(auto)]

mod parts;
mod standing;

ghost use Rattle.std.specs.Prelude.{◌≡◌, [], ◌∷◌, ◌*◌, ◌/◌, ◌<◌, ◌≤◌, true, false, cond, eqb, length, get_or};
ghost use Rattle.layout.specs.Rows.{text_at};
ghost use Rattle.fill.specs.Runs.{over_run, behind_run};
ghost use Rattle.fill.specs.Filling.{lent, is_any, with_ending, filling};
ghost use Rattle.fill.specs.Steps.{number, number_at, is_held, is_edge, Next};

use layout::Kind;

// Where the walk is: the place in the buffer, the blocks since one that does not stand, and the row of the last many blocks; before the
// first of them that is behind the last row, which has no text.
#[derive(Clone, Copy)]
struct Walk {
    at: usize,
    off: usize,
    many: usize,
}

// The row of the last many blocks.
fn last_many(kind: Kind, row: usize, many: usize) -> usize
    ensures { result ≡ cond (is_any (6 ∷ 7 ∷ []) (number kind)) row many }
{
    match kind {
        Kind::Many | Kind::OneMore => row,
        _ => many,
    }
}

// In front of the first field of one of many blocks stands the first line of the last many blocks.
fn put_first(buf: &mut [u8], at: usize, kind: Kind, rows: &[u8], many: usize) -> usize
    ensures { (result ≡ behind_run buf.old at (cond (eqb (number kind) 8) (with_ending (text_at rows.now many)) [])) × (buf.new ≡ over_run buf.old at (cond (eqb (number kind) 8) (with_ending (text_at rows.now many)) [])) }
{
    match kind {
        Kind::Mark => parts::put_edge(buf, at, layout::row_text(rows, many)),
        _ => at,
    }
}

// A row with a slot, where all blocks around it stand. Its value is looked up once, and the first line of many blocks only where
// one of them begins.
fn put_held<'a>(
    buf: &mut [u8],
    rows: &[u8],
    row: usize,
    here: Walk,
    slots: &[u8],
    optional: &[u8],
    text: &[u8],
    starts: &'a [usize],
    ends: &'a [usize],
) -> Walk
    requires { (row < length rows.now / 16) × (is_held (number_at rows.now row) ≡ true) }
    ensures { Next (lent slots.now optional.now text.now starts.now ends.now) rows.now row 0 here.many buf.old here.at buf.new result.at result.off result.many }
{
    let kind = Kind::of(rows[row * 16]);
    let slot = rows[row * 16 + 1];
    let value = parts::value_of(text, starts, ends, slot);
    let front = parts::front(slots, optional, slot, value.len());
    if !standing::has_line(kind, front, value) {
        return Walk {
            off: standing::deeper(kind, 0),
            ..here
        };
    }
    let from = put_first(buf, here.at, kind, rows, here.many);
    let behind = parts::put_line(buf, from, layout::row_text(rows, row), front, value);
    Walk {
        at: behind,
        off: 0,
        ..here
    }
}

// The first or last line of a block, where all blocks around it stand: its text is all that is looked up.
fn put_block<'a>(
    buf: &mut [u8],
    rows: &[u8],
    row: usize,
    here: Walk,
    slots: &[u8],
    optional: &[u8],
    text: &[u8],
    starts: &'a [usize],
    ends: &'a [usize],
) -> Walk
    requires { (row < length rows.now / 16) × (is_held (number_at rows.now row) ≡ false) × (is_edge (number_at rows.now row) ≡ true) }
    ensures { Next (lent slots.now optional.now text.now starts.now ends.now) rows.now row 0 here.many buf.old here.at buf.new result.at result.off result.many }
{
    let kind = Kind::of(rows[row * 16]);
    if !standing::is_open(kind, rows, row, slots, optional, text, starts, ends) {
        return Walk {
            off: standing::deeper(kind, 0),
            ..here
        };
    }
    let behind = parts::put_edge(buf, here.at, layout::row_text(rows, row));
    Walk {
        at: behind,
        off: 0,
        ..here
    }
}

// A row of the table.
fn put_next<'a>(
    buf: &mut [u8],
    rows: &[u8],
    row: usize,
    here: Walk,
    slots: &[u8],
    optional: &[u8],
    text: &[u8],
    starts: &'a [usize],
    ends: &'a [usize],
) -> Walk
    requires { (row < length rows.now / 16) × (here.off ≤ row) }
    ensures { Next (lent slots.now optional.now text.now starts.now ends.now) rows.now row here.off here.many buf.old here.at buf.new result.at result.off result.many }
{
    let kind = Kind::of(rows[row * 16]);
    if here.off != 0 {
        return Walk {
            off: standing::deeper(kind, here.off),
            many: last_many(kind, row, here.many),
            ..here
        };
    }
    match kind {
        Kind::Field | Kind::MayField | Kind::Mark => {
            put_held(buf, rows, row, here, slots, optional, text, starts, ends)
        }
        Kind::Opens | Kind::MayOpen | Kind::Closes | Kind::ManyClose => {
            put_block(buf, rows, row, here, slots, optional, text, starts, ends)
        }
        Kind::Many | Kind::OneMore | Kind::Surplus | Kind::Only | Kind::End => Walk {
            many: last_many(kind, row, here.many),
            ..here
        },
    }
}

// Puts the lines of a table's rows from a place on, each part where it has room, and answers the place behind them.
pub fn put_rows<'a>(
    buf: &mut [u8],
    at: usize,
    rows: &[u8],
    slots: &[u8],
    optional: &[u8],
    text: &[u8],
    starts: &'a [usize],
    ends: &'a [usize],
) -> usize
    ensures { (result ≡ behind_run buf.old at (filling (lent slots.now optional.now text.now starts.now ends.now) rows.now)) × (buf.new ≡ over_run buf.old at (filling (lent slots.now optional.now text.now starts.now ends.now) rows.now)) }
{
    let count = rows.len() / 16;
    let mut here = Walk {
        at,
        off: 0,
        many: count,
    };
    for row in 0..count {
        here = put_next(buf, rows, row, here, slots, optional, text, starts, ends);
    }
    here.at
}
