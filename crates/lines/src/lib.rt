// A message as lines: the line that begins at a place, and the first three things that can be wrong with a message.
//
// What is right stands in specs/Verdicts and specs/Lines.
#![tactic(auto)]

ghost use Rattle.std.specs.Prelude.{◌≡◌, true, false, ◌&&◌, cond, ℕ, ◌≤◌, ◌<◌, eqb, length, get_or, Some, None};
ghost use Rattle.std.specs.Option.{option_or, option_map, unwrap_or};
ghost use Rattle.text.specs.Bytes.{bytes, same};
ghost use Rattle.text.specs.Classes.{is_between};
ghost use Rattle.lines.specs.Verdicts.{refused, pass, then};
ghost use Rattle.lines.specs.Lines.{bare, byte_pass, end_pass, lines_pass, lines_of, ended, ending_width, line_at, start_behind};

// What the desk gets back of a pass: a number of document 01, 0 for nothing wrong, and the line.
#[derive(Clone, Copy)]
pub struct Verdict {
    pub number: u64,
    pub line: usize,
}

// A line of a message: where its text ends, without its ending, and where the next line begins.
#[derive(Clone, Copy)]
pub struct Line {
    pub end: usize,
    pub next: usize,
}

impl Verdict {
    pub const PASS: Verdict = Verdict { number: 0, line: 0 };
}

// How many bytes of a line are left without the CR that belongs to its ending.
#[tactic(auto, using(crate::proofs::Scans::cr_none, crate::proofs::Scans::cr_last, crate::proofs::Scans::cr_other))]
fn without_cr(raw: &[u8]) -> usize
    ensures { result ≡ length (bare raw.now) }
{
    match raw.last() {
        Some(last) if *last == b'\r' => raw.len() - 1,
        _ => raw.len(),
    }
}

// The line that begins at a place of a message; behind the end there is an empty one.
pub fn line_at(message: &[u8], at: usize) -> Line
    ensures { result ≡ line_at message.now at }
{
    if message.len() <= at {
        return Line { end: at, next: at };
    }
    let rest = &message[at..];
    let n = text::find(rest, b'\n');
    let end = at + without_cr(&rest[..n]);
    if n < rest.len() {
        return Line {
            end,
            next: at + n + 1,
        };
    }
    Line { end, next: at + n }
}

// Where the line behind so many lines of a message begins; the message's end where it has no more.
pub fn behind(message: &[u8], count: usize) -> usize
    ensures { result ≡ start_behind message.now count }
{
    let mut at = 0;
    for _ in 0..count {
        at = line_at(message, at).next;
    }
    at
}

// How many bytes from 20 to 7E hex a part begins with.
fn text_length(part: &[u8]) -> usize
    ensures { (result ≤ length part.now) × ((j : ℕ) → j < result → is_between 32 126 (get_or part.now j 0) ≡ true) × (result < length part.now → is_between 32 126 (get_or part.now result 0) ≡ false) }
{
    part.iter()
        .position(|byte| !(b' '..=b'~').contains(byte))
        .unwrap_or(part.len())
}

// How many bytes of line ending a part begins with: 0 where the message ends there, none where another byte stands.
pub fn ending(part: &[u8]) -> Option<usize>
    ensures { result ≡ ending_width part.now }
{
    if part.len() == 0 {
        return Some(0);
    }
    if part[0] == b'\n' {
        return Some(1);
    }
    if text::begins_with(part, b"\r\n") {
        return Some(2);
    }
    None
}

// The first line that is `-`: the one that is known, or else this line.
#[tactic(auto, unfolding(text::specs::Bytes::bytes))]
fn first_end(known: Option<usize>, line: usize, text: &[u8]) -> Option<usize>
    ensures { result ≡ option_or known (cond (same (bytes "-") text.now) (Some line) None) }
{
    if known.is_none() && text::equals(text, b"-") {
        Some(line)
    } else {
        known
    }
}

// 3, at `end`, the first line that is `-`, if it is not the last or has no ending; at the last line if there is none.
#[tactic(auto, using(crate::proofs::Scans::closed_early, crate::proofs::Scans::closed_open, crate::proofs::Scans::closed_good), unfolding(crate::specs::Verdicts::refused, crate::specs::Verdicts::pass))]
fn check_end(message: &[u8], end: Option<usize>, last: usize) -> Verdict
    requires { 0 < length message.now }
    ensures { result ≡ unwrap_or (option_map (λ k. cond (eqb k last && ended message.now) pass (refused 3 k)) end) (refused 3 last) }
{
    let Some(line) = end else {
        return Verdict {
            number: 3,
            line: last,
        };
    };
    if line == last && message[message.len() - 1] == b'\n' {
        return Verdict::PASS;
    }
    Verdict { number: 3, line }
}

// 2, at the first line with a byte that may not stand where it stands, and else 3. A `-` before the end is remembered and said
// behind the loop, since a wrong byte further on comes before it.
fn check_lines(message: &[u8]) -> Verdict
    requires { 0 < length message.now }
    ensures { result ≡ then (byte_pass 1 message.now) (end_pass (ended message.now) 1 (lines_of message.now)) }
{
    let mut line = 0;
    let mut end = None;
    let mut at = 0;
    // From line to line, where `at` jumps: no range or iterator gives its places.
    while at < message.len() {
        line += 1;
        let rest = &message[at..];
        let n = text_length(rest);
        let Some(width) = ending(&rest[n..]) else {
            return Verdict { number: 2, line };
        };
        end = first_end(end, line, &rest[..n]);
        at += n + width;
    }
    check_end(message, end, line)
}

// 1, 2 and 3, in that order.
pub fn check(message: &[u8]) -> Verdict
    ensures { result ≡ lines_pass message.now }
{
    if message.len() == 0 {
        return Verdict { number: 1, line: 0 };
    }
    if 4096 < message.len() {
        return Verdict { number: 1, line: 0 };
    }
    check_lines(message)
}
