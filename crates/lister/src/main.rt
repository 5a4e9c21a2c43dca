// The desk's lister: the heading, and a row for each message of a batch that comes on standard input.
//
// A batch may cut into as many messages as it has lines, and a row is longer than the shortest message: so each row is printed
// as it comes, and the output is never held.
#![tactic(auto)]

use mt515::Mt515;

// The heading stands also where there is no message.
fn head() {
    let mut heading = [0u8; 34];
    let end = listing::put_heading(&mut heading);
    io::write_all(1, &heading[..end]);
}

// A row for each message, counted from 1.
fn list(batch: &[u8]) {
    let mut row = [0u8; 147];
    let mut message: u64 = 1;
    let mut position = 0;
    // A message says where the next one begins, so that no range tells the places.
    while position < batch.len() {
        let answer = batch::next::<Mt515>(batch, position);
        let size = listing::put_row(&mut row, message, answer.reading);
        io::write_all(1, &row[..size]);
        message += 1;
        position = answer.position;
    }
}

fn main() {
    let mut input = [0u8; 65537];
    let size = io::read_full(0, &mut input);
    if 65536 < size {
        io::write_all(1, b"TOO LONG\n");
        return;
    }
    head();
    list(&input[..size]);
}
