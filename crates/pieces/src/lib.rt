// The pieces of a batch, whichever message type its messages are of: where the piece at a position ends, and what stands there.
//
// What is right stands in specs/Pieces, and what calling again and again finds in specs/Calls.
#![tactic(auto)]

ghost use Rattle.std.specs.Prelude.{◌≡◌, ◌+◌, length, drop};
ghost use Rattle.pieces.specs.Pieces.{piece_of};

// What stands at a position: a message, accepted or refused; the end of the batch; nothing, since it is past the end.
#[derive(Clone, Copy)]
pub enum Turn {
    Message,
    Done,
    Past,
}

// Where the piece at a position ends: just after the first line that is `-`, or at the end where there is none.
#[tactic(auto, using(lines::proofs::Laws::located))]
pub fn piece_end(batch: &[u8], position: usize) -> usize
    ensures { result ≡ position + length (piece_of (drop position batch.now)) }
{
    let mut at = position;
    // From line to line, where `at` jumps: no range or iterator gives its places.
    while at < batch.len() {
        let line = lines::line_at(batch, at);
        if text::equals(&batch[at..line.end], b"-") {
            return line.next;
        }
        at = line.next;
    }
    at
}
