// The layout of a message as a table: a line is held against the rows still ahead of it.
//
// Nothing here knows a tag: a message type is a table. What is right stands in specs/Rows and specs/Layout.
#![tactic(auto)]

ghost use Rattle.std.specs.Prelude.{◌≡◌, ◌*◌, ◌+◌, ◌/◌, ◌^◌, ◌≤◌, ◌<◌, eqb, length, drop, set, true, cond, ◌&&◌, ◌||◌, []};
ghost use Rattle.text.specs.Bytes.{begins, same};
ghost use Rattle.bars.specs.Bars.{surplus, strays};
ghost use Rattle.layout.specs.Rows.{kind_of, key_of, text_at, first_row, rows_of, next_key, field, opens, bar};
ghost use Rattle.layout.specs.Layout.{wrong, moves, takes, fits_or9, enters, is_seen, lacks, beneath, against, look, step_of};

// The numbers of document 01: the line fits no slot from here on, and a mandatory one was passed over.
const NO_SLOT: u64 = 8;

const PASSED_OVER: u64 = 9;

// The kind of a row, as its byte numbers it from 0; any other number is the end of many blocks too.
#[derive(Clone, Copy, PartialEq, Eq)]
pub enum Kind {
    End,
    Field,
    MayField,
    Opens,
    MayOpen,
    Closes,
    Many,
    OneMore,
    Mark,
    ManyClose,
    Surplus,
    Only,
}

impl Kind {
    pub fn of(byte: u8) -> Kind
        ensures { result ≡ kind_of byte }
    {
        match byte {
            1 => Kind::Field,
            2 => Kind::MayField,
            3 => Kind::Opens,
            4 => Kind::MayOpen,
            5 => Kind::Closes,
            6 => Kind::Many,
            7 => Kind::OneMore,
            8 => Kind::Mark,
            9 => Kind::ManyClose,
            10 => Kind::Surplus,
            11 => Kind::Only,
            _ => Kind::End,
        }
    }
}

// A place in the table: the next row, and the row to come back to behind one of many blocks.
#[derive(Clone, Copy)]
pub struct Place {
    pub row: usize,
    pub back: usize,
}

// What a line does: it is refused by its number, or taken for a slot whose text has `width` bytes (slot 0 for the first and
// last lines of blocks); and the place behind it.
#[derive(Clone, Copy)]
pub struct Step {
    pub number: u64,
    pub slot: usize,
    pub width: usize,
    pub place: Place,
}

// A line against one row: it is decided, or goes further with the blocks that are being passed over, whether it stands
// first in one of many blocks and a mark was passed over, and whether a mandatory row was.
#[derive(Clone, Copy)]
pub enum Look {
    Decided(Step),
    Further(usize, bool, bool),
}

// How far a line has come over the rows: the place that it began at, the blocks that are being passed over, whether it stands first
// in one of many blocks and a mark was passed over, and whether a mandatory row was.
#[derive(Clone, Copy)]
struct Way {
    here: Place,
    deep: usize,
    unmarked: bool,
    passed: bool,
}

// The text of a row.
fn key(table: &[u8], row: usize) -> &[u8]
    requires { row < length table.now / 16 }
    ensures { result.now ≡ key_of (drop (row * 16) table.now) }
{
    let at = row * 16;
    let len = text::remainder(table[at + 2], 14) as usize;
    let from = at + 3;
    &table[from..from + len]
}

// The text of a row, for who walks the table on his own; behind the last row there is none.
pub fn row_text(table: &[u8], row: usize) -> &[u8]
    ensures { result.now ≡ text_at table.now row }
{
    if row < table.len() / 16 {
        key(table, row)
    } else {
        &table[..0]
    }
}

// The text of a row that is a field's; of any other, and behind the last row, none.
pub fn next_key(table: &[u8], row: usize) -> &[u8]
    ensures { result.now ≡ next_key (drop row (rows_of table.now)) }
{
    let rows = table.len() / 16;
    if rows <= row {
        return &table[..0];
    }
    match Kind::of(table[row * 16]) {
        Kind::Field | Kind::MayField => key(table, row),
        _ => &table[..0],
    }
}

// A line is the first or the last of a block: nothing may follow the block's name.
fn is_line(line: &[u8], key: &[u8]) -> bool
    ensures { result ≡ same key.now line.now }
{
    text::equals(line, key)
}

// A slot was seen; one that has no byte was not.
pub fn is_seen(seen: &[u8], slot: usize) -> bool
    ensures { result ≡ is_seen seen.now slot }
{
    if slot < seen.len() {
        seen[slot] == 1
    } else {
        false
    }
}

// A slot is seen from then on.
pub fn mark(seen: &mut [u8], slot: usize)
    ensures { seen.new ≡ set seen.old slot 1 }
{
    if slot < seen.len() {
        seen[slot] = 1;
    }
}

// One of the marks from a row on, up to the end of the many blocks, was not seen yet.
pub fn lacks_one(table: &[u8], row: usize, seen: &[u8]) -> bool
    ensures { result ≡ lacks seen.now (drop row (rows_of table.now)) }
{
    for i in row..table.len() / 16 {
        let at = i * 16;
        match Kind::of(table[at]) {
            Kind::Mark => {
                if !is_seen(seen, table[at + 1] as usize) {
                    return true;
                }
            }
            Kind::End => return false,
            _ => {}
        }
    }
    false
}

fn refuse(here: Place, number: u64) -> Step
    ensures { result ≡ wrong here number }
{
    Step {
        number,
        slot: 0,
        width: 0,
        place: here,
    }
}

// A line that fits a row: it is taken for a slot, of a text with `width` bytes, and the table goes on at `row`. With a
// mandatory row passed over it is refused.
fn fit(way: Way, slot: usize, width: usize, row: usize, back: usize) -> Look
    ensures { result ≡ Look.Decided (fits_or9 way.here way.passed (record { number = 0; slot = slot; width = width; place = record { row = row; back = back } })) }
{
    if way.passed {
        Look::Decided(refuse(way.here, PASSED_OVER))
    } else {
        Look::Decided(Step {
            number: 0,
            slot,
            width,
            place: Place { row, back },
        })
    }
}

// A line that does not fit a row goes further; a mandatory row is passed over from then on.
fn skip(way: Way, deep: usize, must: bool) -> Look
    ensures { result ≡ Look.Further deep way.unmarked (way.passed || must) }
{
    Look::Further(deep, way.unmarked, way.passed || must)
}

// A line against a field's row.
fn look_field(row: usize, slot: usize, key: &[u8], must: bool, line: &[u8], way: Way) -> Look
    requires { row + 1 < 2 ^ 64 }
    ensures { result ≡ against way.here [] line.now row [] way.unmarked way.passed (field must slot key.now) }
{
    if text::begins_with(line, key) {
        fit(way, slot, key.len(), row + 1, way.here.back)
    } else {
        skip(way, 0, must)
    }
}

// A line against the first line of a block.
fn look_opens(row: usize, key: &[u8], must: bool, line: &[u8], way: Way) -> Look
    requires { row + 1 < 2 ^ 64 }
    ensures { result ≡ against way.here [] line.now row [] way.unmarked way.passed (opens must key.now) }
{
    if is_line(line, key) {
        fit(way, 0, 0, row + 1, way.here.back)
    } else {
        skip(way, 1, must)
    }
}

// A line against the last line of a block, behind which the table goes on at `next`.
fn look_closes(next: usize, key: &[u8], line: &[u8], way: Way) -> Look
    ensures { result ≡ Look.Decided (cond (same key.now line.now) (fits_or9 way.here way.passed (moves way.here next)) (wrong way.here 8)) }
{
    if is_line(line, key) {
        fit(way, 0, 0, next, way.here.back)
    } else {
        Look::Decided(refuse(way.here, NO_SLOT))
    }
}

// A line against the first line of many blocks: one may open or not, and one must still come or not.
fn look_many(row: usize, key: &[u8], may: bool, must: bool, line: &[u8], way: Way) -> Look
    requires { row + 1 < 2 ^ 64 }
    ensures { result ≡ cond (same key.now line.now && may) (Look.Decided (fits_or9 way.here way.passed (enters row))) (Look.Further 1 way.unmarked (way.passed || must)) }
{
    if may && is_line(line, key) {
        fit(way, 0, 0, row + 1, row)
    } else {
        skip(way, 1, must)
    }
}

// A line against the first field of one of many blocks, which was seen or not.
fn look_mark(row: usize, slot: usize, key: &[u8], again: bool, line: &[u8], way: Way) -> Look
    requires { row + 1 < 2 ^ 64 }
    ensures { result ≡ cond (begins key.now line.now) (Look.Decided (cond again (wrong way.here 8) (fits_or9 way.here way.passed (takes way.here row slot (length key.now))))) (Look.Further 1 true way.passed) }
{
    if text::begins_with(line, key) {
        if again {
            Look::Decided(refuse(way.here, NO_SLOT))
        } else {
            fit(way, slot, key.len(), row + 1, way.here.back)
        }
    } else {
        Look::Further(1, true, way.passed)
    }
}

// A line against one block more than may come, which has a number of its own.
fn look_surplus(number: u64, key: &[u8], line: &[u8], way: Way) -> Look
    ensures { result ≡ against way.here [] line.now 0 [] way.unmarked way.passed (bar (surplus number key.now)) }
{
    if is_line(line, key) {
        Look::Decided(refuse(way.here, number))
    } else {
        Look::Further(0, way.unmarked, way.passed)
    }
}

// A line against the words that one goes on with that begins as the next row, whose text is `key`.
fn look_only(words: &[u8], key: &[u8], line: &[u8], way: Way) -> Look
    ensures { result ≡ cond (strays key.now words.now line.now) (Look.Decided (wrong way.here 8)) (Look.Further 0 way.unmarked way.passed) }
{
    if bars::strays(key, words, line) {
        Look::Decided(refuse(way.here, NO_SLOT))
    } else {
        Look::Further(0, way.unmarked, way.passed)
    }
}

// A line against a row of the block that it stands in.
fn look_against(table: &[u8], row: usize, seen: &[u8], line: &[u8], way: Way) -> Look
    requires { row < length table.now / 16 }
    ensures { result ≡ against way.here seen.now line.now row (drop (row + 1) (rows_of table.now)) way.unmarked way.passed (first_row (drop (row * 16) table.now)) }
{
    let slot = table[row * 16 + 1] as usize;
    let text = key(table, row);
    match Kind::of(table[row * 16]) {
        Kind::Field => look_field(row, slot, text, true, line, way),
        Kind::MayField => look_field(row, slot, text, false, line, way),
        Kind::Opens => look_opens(row, text, true, line, way),
        Kind::MayOpen => look_opens(row, text, false, line, way),
        Kind::Closes => look_closes(row + 1, text, line, way),
        Kind::Many => look_many(row, text, true, false, line, way),
        Kind::OneMore => {
            let lacking = lacks_one(table, row + 1, seen);
            look_many(row, text, lacking, lacking, line, way)
        }
        Kind::Mark => look_mark(row, slot, text, is_seen(seen, slot), line, way),
        Kind::ManyClose => look_closes(way.here.back, text, line, way),
        Kind::Surplus => look_surplus(slot as u64, text, line, way),
        Kind::Only => look_only(text, next_key(table, row + 1), line, way),
        Kind::End => Look::Decided(refuse(way.here, NO_SLOT)),
    }
}

// A line closes one of many blocks that it stands first in, where no mark was met.
fn closes_bare(key: &[u8], line: &[u8], way: Way) -> bool
    ensures { result ≡ (way.unmarked && (eqb way.deep 1 && same key.now line.now)) }
{
    way.unmarked && way.deep == 1 && is_line(line, key)
}

// A line is a later field of one of many blocks that it stands first in, where no mark was met.
fn begins_bare(key: &[u8], line: &[u8], way: Way) -> bool
    ensures { result ≡ (way.unmarked && (eqb way.deep 1 && begins key.now line.now)) }
{
    way.unmarked && way.deep == 1 && text::begins_with(line, key)
}

// A line against a field's row inside a block that is being passed over.
fn look_inside(key: &[u8], line: &[u8], way: Way) -> Look
    ensures { result ≡ cond (way.unmarked && (eqb way.deep 1 && begins key.now line.now)) (Look.Decided (wrong way.here 9)) (Look.Further way.deep way.unmarked way.passed) }
{
    if begins_bare(key, line, way) {
        Look::Decided(refuse(way.here, PASSED_OVER))
    } else {
        Look::Further(way.deep, way.unmarked, way.passed)
    }
}

// A line against a row inside a block that is being passed over.
fn look_beneath(table: &[u8], row: usize, line: &[u8], way: Way) -> Look
    requires { (row < length table.now / 16) × (0 < way.deep) × (way.deep ≤ row) }
    ensures { result ≡ beneath way.here line.now way.deep way.unmarked way.passed (first_row (drop (row * 16) table.now)) }
{
    match Kind::of(table[row * 16]) {
        Kind::Field | Kind::MayField => look_inside(key(table, row), line, way),
        Kind::Opens | Kind::MayOpen | Kind::Many | Kind::OneMore | Kind::Mark => {
            Look::Further(way.deep + 1, way.unmarked, way.passed)
        }
        Kind::ManyClose => {
            if closes_bare(key(table, row), line, way) {
                Look::Decided(refuse(way.here, PASSED_OVER))
            } else {
                Look::Further(way.deep - 1, way.unmarked, way.passed)
            }
        }
        Kind::Surplus | Kind::Only => Look::Further(way.deep, way.unmarked, way.passed),
        Kind::Closes | Kind::End => Look::Further(way.deep - 1, way.unmarked, way.passed),
    }
}

// A line against a row.
fn look_at(table: &[u8], row: usize, seen: &[u8], line: &[u8], way: Way) -> Look
    requires { (row < length table.now / 16) × (way.deep ≤ row) }
    ensures { result ≡ look way.here seen.now line.now row (drop (row + 1) (rows_of table.now)) way.deep way.unmarked way.passed (first_row (drop (row * 16) table.now)) }
{
    if way.deep == 0 {
        look_against(table, row, seen, line, way)
    } else {
        look_beneath(table, row, line, way)
    }
}

// What a line does at a place of the table, with the slots that were seen.
pub fn next_step(table: &[u8], here: Place, seen: &[u8], line: &[u8]) -> Step
    ensures { result ≡ step_of (rows_of table.now) here seen.now line.now }
{
    let mut way = Way {
        here,
        deep: 0,
        unmarked: false,
        passed: false,
    };
    for row in here.row..table.len() / 16 {
        match look_at(table, row, seen, line, way) {
            Look::Decided(step) => return step,
            Look::Further(deep, unmarked, passed) => {
                way = Way {
                    here,
                    deep,
                    unmarked,
                    passed,
                };
            }
        }
    }
    refuse(here, NO_SLOT)
}
