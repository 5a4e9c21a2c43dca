// What stops a line of a message, whatever stands behind it in its block.
//
// A line that is one block more than may come is told by its text alone, so that there is code here for a line's words only. What is
// right stands in specs/Bars.
#![tactic(auto)]

ghost use Rattle.std.specs.Prelude.{◌≡◌};
ghost use Rattle.bars.specs.Bars.{goes_on, strays};

// A value begins with one of the words of four letters that stand one behind the other.
pub fn goes_on(words: &[u8], value: &[u8]) -> bool
    ensures { result ≡ goes_on words.now value.now }
{
    for word in words.chunks_exact(4) {
        if text::begins_with(value, word) {
            return true;
        }
    }
    false
}

// A line begins with a text, and does not go on with one of the words.
#[tactic(auto, using(crate::proofs::Laws::key_within), unfolding(crate::specs::Bars::strays))]
pub fn strays(key: &[u8], words: &[u8], line: &[u8]) -> bool
    ensures { result ≡ strays key.now words.now line.now }
{
    text::begins_with(line, key) && !goes_on(words, &line[key.len()..])
}
