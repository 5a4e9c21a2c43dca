// Runs whole messages through the reader: for each the number and line that it gets, and of an accepted one its kind, MAST,
// buyer, seller, price and par.
//
// In the input a line of `# ` and a name stands before each message, which runs to the next such line, its bytes just as they
// stand. No message here has a line that begins so; behind the header it would be 5.
#![tactic(auto)]

ghost use Rattle.std.specs.Prelude.{◌≤◌, length};

use amount::Amount;
use format::Reading;
use mt515::Mt515;
use text::Text;
use trade::{Kind, Trade};

// Prints a blank and a text; `-` for one that is absent.
fn say(what: Text) {
    if what.len == 0 {
        io::write_all(1, b" -");
        return;
    }
    io::write_all(1, b" ");
    let mut out = [0u8; 20];
    let end = text::put_text(&mut out, 0, what);
    io::write_all(1, &out[..end]);
}

// An amount is printed as its shortest text.
fn say_amount(amount: Amount) {
    let mut bytes = [0u8; 20];
    let len = amount.put(&mut bytes, 0);
    say(Text { bytes, len });
}

// How many digits a number has, up to four: a message has no more lines.
fn width_of(number: u64) -> usize {
    if number < 10 {
        return 1;
    }
    if number < 100 {
        return 2;
    }
    if number < 1000 {
        return 3;
    }
    4
}

fn say_number(number: u64) {
    let mut bytes = [0u8; 20];
    let len = digits::put_digits(&mut bytes, 0, width_of(number), number);
    say(Text { bytes, len });
}

fn say_kind(kind: Kind) {
    match kind {
        Kind::Inst => say(Text::of(b"INST")),
        Kind::Canc => say(Text::of(b"CANC")),
        Kind::Mdfc => say(Text::of(b"MDFC")),
        Kind::Tddk => say(Text::of(b"TDDK")),
    }
}

fn say_reading(reading: Reading<Trade>) {
    say_number(reading.number);
    say_number(reading.line as u64);
    if reading.number != 0 {
        io::write_all(1, b" - - - - - -\n");
        return;
    }
    let trade = reading.held;
    let kind = trade.kind;
    say_kind(kind);
    say(trade.mast);
    say(trade.buyer.code);
    say(trade.seller.code);
    say_amount(trade.price.0);
    say_amount(trade.par.0);
    io::write_all(1, b"\n");
}

// Where the next line that names a message begins, from the start of a line on; the end where there is none.
fn next_name(input: &[u8], from: usize) -> usize
    requires { from ≤ length input.now }
    ensures { (from ≤ result) × (result ≤ length input.now) }
{
    let mut at = from;
    // A line says where the next one begins, so that no range tells the places.
    while at < input.len() {
        if text::begins_with(&input[at..], b"# ") {
            return at;
        }
        let line = lines::line_at(input, at);
        at = line.next;
    }
    at
}

// Prints a name without its `# `.
fn say_name(line: &[u8]) {
    if text::begins_with(line, b"# ") {
        io::write_all(1, &line[2..]);
    }
}

fn say_all(input: &[u8]) {
    let mut at = 0;
    // Here too, so that no range tells the places.
    while at < input.len() {
        let name = lines::line_at(input, at);
        let end = name.end;
        let from = name.next;
        let next = next_name(input, from);
        say_name(&input[at..end]);
        say_reading(reading::read::<Mt515>(&input[from..next]));
        at = next;
    }
}

fn main() {
    let mut input = [0u8; 65537];
    let size = io::read_full(0, &mut input);
    if 65536 < size {
        io::write_all(1, b"TOO LONG\n");
        return;
    }
    say_all(&input[..size]);
}
