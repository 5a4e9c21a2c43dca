// The narrative of a record, put part by part into a line that has room for the longest: 9, 5, 13 and 25 bytes.
ghost use Rattle.std.specs.Prelude.{◌≡◌, ◌+◌, ◌≤◌, length};
ghost use Rattle.text.specs.Copy.{placed, after};
ghost use Rattle.pool_values.specs.Values.{cdr_text, delivery_text, narrative};

use calendar::Date;
use text::Text;

// `/CDRY`; nothing where the pool has no CDR status.
fn put_cdr(line: &mut [u8], at: usize, cdr: bool) -> usize
    ensures { (result ≡ after line.old at (cdr_text cdr)) × (line.new ≡ placed line.old at (cdr_text cdr)) }
{
    if cdr {
        return text::put(line, at, b"/CDRY");
    }
    text::put(line, at, b"")
}

// `/DDTE` and the date; nothing where there is none.
fn put_delivery(line: &mut [u8], at: usize, delivery: Option<Date>) -> usize
    requires { at + 13 ≤ length line.old }
    ensures { (result ≡ after line.old at (delivery_text delivery)) × (line.new ≡ placed line.old at (delivery_text delivery)) }
{
    match delivery {
        None => text::put(line, at, b""),
        Some(date) => {
            let next = text::put(line, at, b"/DDTE");
            date.put(line, next)
        }
    }
}

// The narrative as one part, as `text::put` puts a part; it has at most 52 bytes.
pub(crate) fn put_narrative(
    buf: &mut [u8],
    at: usize,
    cdr: bool,
    delivery: Option<Date>,
    reason: Text,
) -> usize
    ensures { (result ≡ after buf.old at (narrative cdr delivery reason)) × (buf.new ≡ placed buf.old at (narrative cdr delivery reason)) × (length (narrative cdr delivery reason) ≤ 52) }
{
    let mut line = [0u8; 52];
    let behind = text::put(&mut line, 0, b"/TDSVPOOL");
    let marked = put_cdr(&mut line, behind, cdr);
    let dated = put_delivery(&mut line, marked, delivery);
    let end = reason::put(&mut line, dated, reason);
    text::put(buf, at, &line[..end])
}
