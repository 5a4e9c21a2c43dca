// The narrative of a record, put part by part into a line that has room for the longest: 9, 6 and 25 bytes.
ghost use Rattle.std.specs.Prelude.{◌≡◌, ◌+◌, ◌≤◌, length};
ghost use Rattle.text.specs.Copy.{placed, after};
ghost use Rattle.values.specs.Values.{period_text, narrative};

use super::words;
use text::Text;
use trade::Service;

// `/GUPP` and its digit, 0 too; nothing where there is no period.
fn put_period(line: &mut [u8], at: usize, period: Option<u64>) -> usize
    requires { at + 6 ≤ length line.old }
    ensures { (result ≡ after line.old at (period_text period)) × (line.new ≡ placed line.old at (period_text period)) }
{
    match period {
        None => text::put(line, at, b""),
        Some(days) => {
            let next = text::put(line, at, b"/GUPP");
            digits::put_digits(line, next, 1, days)
        }
    }
}

// The narrative as one part, as `text::put` puts a part; it has at most 40 bytes.
pub(crate) fn put_narrative(
    buf: &mut [u8],
    at: usize,
    service: Service,
    period: Option<u64>,
    reason: Text,
) -> usize
    ensures { (result ≡ after buf.old at (narrative service period reason)) × (buf.new ≡ placed buf.old at (narrative service period reason)) × (length (narrative service period reason) ≤ 40) }
{
    let word = words::service_text(service);
    let mut line = [0u8; 40];
    let behind = text::put(&mut line, 0, &word);
    let next = put_period(&mut line, behind, period);
    let end = reason::put(&mut line, next, reason);
    text::put(buf, at, &line[..end])
}
