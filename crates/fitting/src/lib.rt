// The row of a table that the line at the front of a text fits, without a look for the end of the line.
//
// Nothing here knows a tag. What is right stands in specs/Fitting.
#![tactic(auto)]

ghost use Rattle.std.specs.Prelude.{◌≡◌, true, cond, ◌&&◌, [], ◌*◌, ◌+◌, ◌/◌, ◌^◌, ◌≤◌, ◌<◌, eqb, length, drop};
ghost use Rattle.text.specs.Bytes.{begins};
ghost use Rattle.layout.specs.Rows.{rows_of, first_row, field, mark};
ghost use Rattle.layout.specs.Layout.{takes};
ghost use Rattle.fitting.specs.Fitting.{Fitted, is_edge, glimpse, glimpse_beneath, glimpse_at};

use layout::{Kind, Place, Step};

// The line is the first or the last of a block, or a field's: what it does, and how many bytes the text of its row has.
#[derive(Clone, Copy)]
pub enum Fit {
    Edge(Step, usize),
    Field(Step, usize),
}

// The text against one row: the line fits it, or goes further with the blocks that are being passed over and whether a mark was; or
// nothing is told.
#[derive(Clone, Copy)]
enum Glimpse {
    Edge(Step, usize),
    Field(Step, usize),
    Further(usize, bool),
    Not,
}

// Nothing is told, or the line goes further.
fn unless(stop: bool, deep: usize, unmarked: bool) -> Glimpse
    ensures { result ≡ cond stop Glimpse.Not (Glimpse.Further deep unmarked) }
{
    if stop {
        Glimpse::Not
    } else {
        Glimpse::Further(deep, unmarked)
    }
}

// A text begins with the first or last line of a block. Its ending is looked at only where the text begins with the block's name.
#[tactic(auto, using(crate::proofs::Fronts::edge_told, crate::proofs::Fronts::edge_wide, crate::proofs::Fronts::edge_zero, crate::proofs::Fronts::edge_open, crate::proofs::Fronts::edge_none, crate::proofs::Fronts::front_within))]
fn is_edge(text: &[u8], key: &[u8]) -> bool
    ensures { result ≡ is_edge text.now key.now }
{
    if text::begins_with(text, key) {
        matches!(lines::ending(&text[key.len()..]), Some(1..=2))
    } else {
        false
    }
}

// A text against the first or last line of a block, which must stand here or not; behind it the table goes on at `row`.
fn see_edge(row: usize, back: usize, key: &[u8], must: bool, text: &[u8], unmarked: bool) -> Glimpse
    ensures { result ≡ cond (is_edge text.now key.now) (Glimpse.Edge (record { number = 0; slot = 0; width = 0; place = record { row = row; back = back } }) (length key.now)) (cond must Glimpse.Not (Glimpse.Further 1 unmarked)) }
{
    if is_edge(text, key) {
        let step = Step {
            number: 0,
            slot: 0,
            width: 0,
            place: Place { row, back },
        };
        Glimpse::Edge(step, key.len())
    } else {
        unless(must, 1, unmarked)
    }
}

// The text of a field's row is at the front: it is taken for the slot.
fn take(row: usize, slot: usize, width: usize, here: Place) -> Glimpse
    requires { row + 1 < 2 ^ 64 }
    ensures { result ≡ Glimpse.Field (takes here row slot width) width }
{
    Glimpse::Field(
        Step {
            number: 0,
            slot,
            width,
            place: Place {
                row: row + 1,
                back: here.back,
            },
        },
        width,
    )
}

// A text against a field's row.
fn see_field(
    row: usize,
    slot: usize,
    key: &[u8],
    must: bool,
    text: &[u8],
    here: Place,
    unmarked: bool,
) -> Glimpse
    requires { row + 1 < 2 ^ 64 }
    ensures { result ≡ glimpse here [] text.now row [] unmarked (field must slot key.now) }
{
    if text::begins_with(text, key) {
        take(row, slot, key.len(), here)
    } else {
        unless(must, 0, unmarked)
    }
}

// A text against the first field of one of many blocks; one that was seen is not taken again.
fn see_mark(row: usize, slot: usize, key: &[u8], seen: &[u8], text: &[u8], here: Place) -> Glimpse
    requires { row + 1 < 2 ^ 64 }
    ensures { result ≡ glimpse here seen.now text.now row [] true (mark slot key.now) }
{
    if text::begins_with(text, key) {
        if layout::is_seen(seen, slot) {
            Glimpse::Not
        } else {
            take(row, slot, key.len(), here)
        }
    } else {
        Glimpse::Further(1, true)
    }
}

// A text against a row of the block that the line stands in.
fn see_row(
    table: &[u8],
    row: usize,
    seen: &[u8],
    text: &[u8],
    here: Place,
    unmarked: bool,
) -> Glimpse
    requires { row < length table.now / 16 }
    ensures { result ≡ glimpse here seen.now text.now row (drop (row + 1) (rows_of table.now)) unmarked (first_row (drop (row * 16) table.now)) }
{
    let slot = table[row * 16 + 1] as usize;
    let key = layout::row_text(table, row);
    let next = row + 1;
    let back = here.back;
    match Kind::of(table[row * 16]) {
        Kind::Field => see_field(row, slot, key, true, text, here, unmarked),
        Kind::MayField => see_field(row, slot, key, false, text, here, unmarked),
        Kind::Opens | Kind::Closes => see_edge(next, back, key, true, text, unmarked),
        Kind::MayOpen => see_edge(next, back, key, false, text, unmarked),
        Kind::Many => see_edge(next, row, key, false, text, unmarked),
        Kind::OneMore => {
            if layout::lacks_one(table, next, seen) {
                see_edge(next, row, key, true, text, unmarked)
            } else {
                Glimpse::Further(1, unmarked)
            }
        }
        Kind::Mark => see_mark(row, slot, key, seen, text, here),
        Kind::ManyClose => see_edge(back, back, key, true, text, unmarked),
        Kind::Surplus => unless(text::begins_with(text, key), 0, unmarked),
        Kind::Only => unless(
            bars::strays(layout::next_key(table, next), key, text),
            0,
            unmarked,
        ),
        Kind::End => Glimpse::Not,
    }
}

// A text goes further behind a line of a block that is passed over. Where that is one of many blocks, whose first field was not met, and
// the text begins as the line, nothing is told.
fn pass_over(text: &[u8], key: &[u8], deep: usize, behind: usize, unmarked: bool) -> Glimpse
    ensures { result ≡ cond (unmarked && (eqb deep 1 && begins key.now text.now)) Glimpse.Not (Glimpse.Further behind unmarked) }
{
    if unmarked {
        if deep == 1 {
            return unless(text::begins_with(text, key), behind, unmarked);
        }
    }
    Glimpse::Further(behind, unmarked)
}

// A text against a row inside a block that is being passed over.
fn see_beneath(table: &[u8], row: usize, text: &[u8], deep: usize, unmarked: bool) -> Glimpse
    requires { (row < length table.now / 16) × (0 < deep) × (deep ≤ row) }
    ensures { result ≡ glimpse_beneath text.now deep unmarked (first_row (drop (row * 16) table.now)) }
{
    let key = layout::row_text(table, row);
    match Kind::of(table[row * 16]) {
        Kind::Field | Kind::MayField => pass_over(text, key, deep, deep, unmarked),
        Kind::Opens | Kind::MayOpen | Kind::Many | Kind::OneMore | Kind::Mark => {
            Glimpse::Further(deep + 1, unmarked)
        }
        Kind::ManyClose => pass_over(text, key, deep, deep - 1, unmarked),
        Kind::Surplus | Kind::Only => Glimpse::Further(deep, unmarked),
        Kind::Closes | Kind::End => Glimpse::Further(deep - 1, unmarked),
    }
}

// A text against a row.
fn see(
    table: &[u8],
    row: usize,
    seen: &[u8],
    text: &[u8],
    here: Place,
    deep: usize,
    unmarked: bool,
) -> Glimpse
    requires { (row < length table.now / 16) × (deep ≤ row) }
    ensures { result ≡ glimpse_at here seen.now text.now row (drop (row + 1) (rows_of table.now)) deep unmarked (first_row (drop (row * 16) table.now)) }
{
    if deep == 0 {
        see_row(table, row, seen, text, here, unmarked)
    } else {
        see_beneath(table, row, text, deep, unmarked)
    }
}

// The row from a place on, with the slots that were seen, that the line at the front of a text fits; or nothing is told.
pub fn row_for(table: &[u8], here: Place, seen: &[u8], text: &[u8]) -> Option<Fit>
    ensures { Fitted (rows_of table.now) here seen.now text.now result }
{
    let mut deep = 0;
    let mut unmarked = false;
    for row in here.row..table.len() / 16 {
        match see(table, row, seen, text, here, deep, unmarked) {
            Glimpse::Edge(step, width) => return Some(Fit::Edge(step, width)),
            Glimpse::Field(step, width) => return Some(Fit::Field(step, width)),
            Glimpse::Further(d, u) => {
                deep = d;
                unmarked = u;
            }
            Glimpse::Not => return None,
        }
    }
    None
}
