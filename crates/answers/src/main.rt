// The desk's list of answers: the heading, and a row for each message of a batch of MT509 that comes on standard input.
//
// A batch may cut into as many messages as it has lines, and a row is longer than the shortest message: so each row is printed
// as it comes, and the output is never held.
#![tactic(auto)]

use mt509::Mt509;

// The heading stands also where there is no message.
fn head() {
    let mut heading = [0u8; 44];
    let end = answer_listing::put_heading(&mut heading);
    io::write_all(1, &heading[..end]);
}

// A row for each message, counted from 1.
fn list(batch: &[u8]) {
    let mut row = [0u8; 357];
    let mut message: u64 = 1;
    let mut position = 0;
    // A message says where the next one begins, so that no range tells the places.
    while position < batch.len() {
        let found = batch::next::<Mt509>(batch, position);
        let size = answer_listing::put_row(&mut row, message, found.reading);
        io::write_all(1, &row[..size]);
        message += 1;
        position = found.position;
    }
}

fn main() {
    let mut input = [0u8; 65537];
    let size = io::read_full(0, &mut input);
    if 65536 < size {
        io::write_all(1, b"TOO LONG\n");
        return;
    }
    head();
    list(&input[..size]);
}
