// What the desk's list of answers prints: the heading, and a row for each message of a batch.
//
// What is right stands in specs/Rows. The fields in front of the reasons are held as seven texts, and a row is composed in a line that
// has room for every one before it goes to the caller's buffer, so that half of a row is never seen.
#![tactic(auto)]

ghost use Rattle.std.specs.Prelude.{◌≡◌, ◌≤◌, length};
ghost use mathlib.Core.List.{[], ◌∷◌, ◌++◌, flatten};
ghost use Rattle.text.specs.Copy.{placed, after};
ghost use Rattle.text.specs.Texts.{contents};
ghost use Rattle.status.specs.Statuses.{status_text};
ghost use Rattle.fill.specs.Runs.{over_run, behind_run};
ghost use Rattle.listing.specs.Rows.{parted};
ghost use Rattle.answer_listing.specs.Rows.{heading, without_issuer, codes_of, printed_row};
ghost use Rattle.answer_listing.specs.Composed.{fields_in, front_of, code_parts, reason_parts, number_parts, told_parts, parts_of};

use answer::Answer;
use format::Reading;
use status::Status;
use text::Text;

// The fields of a row in front of its reasons.
#[derive(Clone, Copy)]
struct Row {
    message: Text,
    number: Text,
    line: Text,
    status: Text,
    mast: Text,
    list: Text,
    rela: Text,
}

// A value of 25D without its issuer.
fn without_issuer(value: &[u8]) -> Text
    ensures { contents result ≡ without_issuer value.now }
{
    let n = value.len();
    if n < 4 {
        return Text::of(b"-");
    }
    let mut short = [b'/'; 9];
    text::put(&mut short, 0, &value[..4]);
    text::put(&mut short, 5, &value[n - 4..]);
    Text::of(&short)
}

// No value of 25D has more than fourteen bytes.
fn status_text(status: Status) -> Text
    ensures { contents result ≡ without_issuer (status_text status) }
{
    let mut value = [0u8; 14];
    let end = status.put(&mut value, 0);
    without_issuer(&value[..end])
}

// The fields in front of the reasons; of what is refused no field of the record.
fn row_of(message: u64, reading: Reading<Answer>) -> Row
    ensures { fields_in result ≡ front_of message reading }
{
    let message = listing::decimal(message);
    let number = listing::decimal(reading.number);
    let line = listing::decimal(reading.line as u64);
    if reading.number != 0 {
        let none = Text::of(b"-");
        return Row {
            message,
            number,
            line,
            status: none,
            mast: none,
            list: none,
            rela: none,
        };
    }
    Row {
        message,
        number,
        line,
        status: status_text(reading.held.status),
        mast: listing::shown(reading.held.mast),
        list: listing::shown(reading.held.list),
        rela: listing::shown(reading.held.rela),
    }
}

// A code, behind the byte that parts it from what stands in front.
fn put_code(line: &mut [u8], at: usize, between: u8, code: Text) -> usize
    ensures { (result ≡ behind_run line.old at ((between ∷ []) ∷ contents code ∷ [])) × (line.new ≡ over_run line.old at ((between ∷ []) ∷ contents code ∷ [])) }
{
    let end = text::put(line, at, &[between]);
    text::put_text(line, end, code)
}

// The codes of the reasons: a blank before the first, and a comma before each of the others. Each takes twenty bytes and the one before it.
fn put_codes(line: &mut [u8], at: usize, answer: Answer) -> usize
    ensures { (result ≡ behind_run line.old at (code_parts 32 (codes_of answer))) × (line.new ≡ over_run line.old at (code_parts 32 (codes_of answer)))
        × (length (flatten (code_parts 32 (codes_of answer))) ≤ 210) }
{
    let mut end = at;
    let mut between = b' ';
    for number in 0..10 {
        let reason = answer::reason_at(answer, number);
        let code = reason.code;
        if code.len == 0 {
            return end;
        }
        end = put_code(line, end, between, code);
        between = b',';
    }
    end
}

// The field of the reasons and the blank before it.
fn put_reasons(line: &mut [u8], at: usize, reading: Reading<Answer>) -> usize
    ensures { (result ≡ behind_run line.old at (reason_parts reading)) × (line.new ≡ over_run line.old at (reason_parts reading)) × (length (flatten (reason_parts reading)) ≤ 210) }
{
    if reading.number != 0 {
        return text::put(line, at, b" -");
    }
    let answer = reading.held;
    let first = answer::reason_at(answer, 0);
    if first.code.len == 0 {
        return text::put(line, at, b" -");
    }
    put_codes(line, at, answer)
}

// The three numbers of a row.
fn put_numbers(line: &mut [u8], row: Row) -> usize
    ensures { (result ≡ behind_run line.old 0 (number_parts row)) × (line.new ≡ over_run line.old 0 (number_parts row)) }
{
    let number = listing::put_field(line, 0, row.message);
    let place = listing::put_field(line, number, row.number);
    listing::put_field(line, place, row.line)
}

// Status, MAST, LIST and RELA.
fn put_told(line: &mut [u8], at: usize, row: Row) -> usize
    ensures { (result ≡ behind_run line.old at (told_parts row)) × (line.new ≡ over_run line.old at (told_parts row)) }
{
    let mast = listing::put_field(line, at, row.status);
    let list = listing::put_field(line, mast, row.mast);
    let rela = listing::put_field(line, list, row.list);
    text::put_text(line, rela, row.rela)
}

// The fields one behind the other; LF behind the last. They are seven texts and at most ten codes, and a byte behind each.
fn compose(line: &mut [u8], row: Row, reading: Reading<Answer>) -> usize
    ensures { (result ≡ behind_run line.old 0 (parts_of row reading)) × (line.new ≡ over_run line.old 0 (parts_of row reading)) × (length (flatten (parts_of row reading)) ≤ 357) }
{
    let told = put_numbers(line, row);
    let reasons = put_told(line, told, row);
    let end = put_reasons(line, reasons, reading);
    text::put(line, end, b"\n")
}

// Puts the heading at the start of a lent buffer, as `text::put` puts a part.
pub fn put_heading(buf: &mut [u8]) -> usize
    ensures { (result ≡ after buf.old 0 heading) × (buf.new ≡ placed buf.old 0 heading) }
{
    text::put(buf, 0, b"MSG CODE LINE STATUS MAST LIST RELA REASONS\n")
}

// Puts the row of a message, given its place in the batch and its reading, at the start of a lent buffer, as `text::put` puts a
// part. A buffer of 357 bytes has room for every row.
pub fn put_row(buf: &mut [u8], message: u64, reading: Reading<Answer>) -> usize
    ensures { (result ≡ after buf.old 0 (printed_row message reading)) × (buf.new ≡ placed buf.old 0 (printed_row message reading)) × (length (printed_row message reading) ≤ 357) }
{
    let row = row_of(message, reading);
    let mut line = [0u8; 357];
    let end = compose(&mut line, row, reading);
    text::put(buf, 0, &line[..end])
}
