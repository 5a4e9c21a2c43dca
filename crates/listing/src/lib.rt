// What the desk's lister prints: the heading, and a row for each message of a batch.
//
// What is right stands in specs/Rows. A row is held as seven texts, and composed in a line that has room for every one before
// it goes to the caller's buffer, so that half of a row is never seen.
#![tactic(auto)]

ghost use Rattle.std.specs.Prelude.{◌≡◌, ◌++◌, ◌≤◌, length};
ghost use Rattle.text.specs.Copy.{placed, after};
ghost use Rattle.text.specs.Texts.{contents, text_of};
ghost use Rattle.values.specs.Values.{kind_word};
ghost use Rattle.fill.specs.Runs.{over_run, behind_run};
ghost use Rattle.listing.specs.Rows.{spaced, parted, heading, decimal, shown, shown_text, fields_of, printed_row};
ghost use Rattle.listing.specs.Composed.{fields_in, parts_of};

use format::Reading;
use text::Text;
use trade::Trade;

// The seven fields of a row.
#[derive(Clone, Copy)]
struct Row {
    message: Text,
    number: Text,
    line: Text,
    kind: Text,
    mast: Text,
    buyer: Text,
    seller: Text,
}

// A number without needless noughts in front; zero keeps one.
pub fn decimal(number: u64) -> Text
    ensures { (result ≡ text_of (decimal number)) × (contents result ≡ decimal number) }
{
    let mut all = [b'0'; 20];
    digits::put_digits(&mut all, 0, 20, number);
    let from = amount::leading(&all[..19]);
    Text::of(&all[from..])
}

// `-` for what is absent.
pub fn shown(text: Text) -> Text
    ensures { (result ≡ shown_text text) × (contents result ≡ shown (contents text)) }
{
    if text.len == 0 {
        return Text::of(b"-");
    }
    text
}

fn kind_text(trade: Trade) -> Text
    ensures { contents result ≡ kind_word trade.kind }
{
    let kind = trade.kind;
    Text::of(&values::words::kind_word(kind))
}

// The fields of a row; of what is refused no field of the record.
fn row_of(message: u64, reading: Reading<Trade>) -> Row
    ensures { fields_in result ≡ fields_of message reading }
{
    let message = decimal(message);
    let number = decimal(reading.number);
    let line = decimal(reading.line as u64);
    if reading.number != 0 {
        let none = Text::of(b"-");
        return Row {
            message,
            number,
            line,
            kind: none,
            mast: none,
            buyer: none,
            seller: none,
        };
    }
    Row {
        message,
        number,
        line,
        kind: kind_text(reading.held),
        mast: shown(reading.held.mast),
        buyer: shown(reading.held.buyer.code),
        seller: shown(reading.held.seller.code),
    }
}

// A field and the blank behind it.
pub fn put_field(line: &mut [u8], at: usize, field: Text) -> usize
    ensures { (result ≡ behind_run line.old at (parted (contents field))) × (line.new ≡ over_run line.old at (parted (contents field))) }
{
    let end = text::put_text(line, at, field);
    text::put(line, end, b" ")
}

// The three numbers of a row.
fn put_numbers(line: &mut [u8], row: Row) -> usize
    ensures { (result ≡ behind_run line.old 0 (parted (contents row.message) ++ (parted (contents row.number) ++ parted (contents row.line))))
        × (line.new ≡ over_run line.old 0 (parted (contents row.message) ++ (parted (contents row.number) ++ parted (contents row.line)))) }
{
    let number = put_field(line, 0, row.message);
    let place = put_field(line, number, row.number);
    put_field(line, place, row.line)
}

// The fields one behind the other; LF behind the last. They are seven texts, and a byte behind each.
fn compose(line: &mut [u8], row: Row) -> usize
    ensures { (result ≡ behind_run line.old 0 (parts_of row)) × (line.new ≡ over_run line.old 0 (parts_of row)) × (length (spaced (fields_in row)) ≤ 147) }
{
    let kind = put_numbers(line, row);
    let mast = put_field(line, kind, row.kind);
    let buyer = put_field(line, mast, row.mast);
    let seller = put_field(line, buyer, row.buyer);
    let end = text::put_text(line, seller, row.seller);
    text::put(line, end, b"\n")
}

// Puts the heading at the start of a lent buffer, as `text::put` puts a part.
pub fn put_heading(buf: &mut [u8]) -> usize
    ensures { (result ≡ after buf.old 0 heading) × (buf.new ≡ placed buf.old 0 heading) }
{
    text::put(buf, 0, b"MSG CODE LINE KIND MAST BUYR SELL\n")
}

// Puts the row of a message, given its place in the batch and its reading, at the start of a lent buffer, as `text::put` puts a
// part. A buffer of 147 bytes has room for every row.
pub fn put_row(buf: &mut [u8], message: u64, reading: Reading<Trade>) -> usize
    ensures { (result ≡ after buf.old 0 (printed_row message reading)) × (buf.new ≡ placed buf.old 0 (printed_row message reading)) × (length (printed_row message reading) ≤ 147) }
{
    let row = row_of(message, reading);
    let mut line = [0u8; 147];
    let end = compose(&mut line, row);
    text::put(buf, 0, &line[..end])
}
