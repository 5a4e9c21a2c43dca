// The values of a record put one behind the other into a text, and the place behind each kept.
//
// Nothing here knows a record: what it has for its slots is put by a few values at a time, from the k-th place on. What is right
// stands in fill's specs/Runs and specs/Places. Beside what it puts each says how many bytes that is at most, so that one can tell
// how long a text has room for all values of a record.
#![tactic(auto)]

ghost use Rattle.std.specs.Prelude.{◌≡◌, ◌≤◌, length};
ghost use mathlib.Core.List.{[], ◌∷◌, flatten};
ghost use Rattle.std.proofs.lemmas.List.Edits.{sets};
ghost use Rattle.text.specs.Texts.{contents};
ghost use Rattle.text.specs.Copy.{placed, after};
ghost use Rattle.fill.specs.Runs.{over_run, behind_run};
ghost use Rattle.fill.specs.Places.{ends};

use text::Text;

// Only the text is put, and not the zero bytes behind it.
pub fn put_text(buf: &mut [u8], at: usize, text: Text) -> usize
    ensures { (result ≡ after buf.old at (contents text)) × (buf.new ≡ placed buf.old at (contents text)) × (length (contents text) ≤ 20) }
{
    text::put_text(buf, at, text)
}

// Keeps places one behind the other, from the k-th on; what has no place is let go.
pub fn keep(places: &mut [usize], k: usize, ends: &[usize])
    ensures { places.new ≡ sets places.old k ends.now }
{
    let mut place = k;
    for &end in ends {
        if places.len() <= place {
            return;
        }
        places[place] = end;
        place += 1;
    }
}

// Two texts.
pub fn put_two(
    text: &mut [u8],
    places: &mut [usize],
    at: usize,
    k: usize,
    first: Text,
    second: Text,
) -> usize
    ensures { (result ≡ behind_run text.old at (contents first ∷ contents second ∷ []))
        × (text.new ≡ over_run text.old at (contents first ∷ contents second ∷ []))
        × (places.new ≡ sets places.old k (ends text.old at (contents first ∷ contents second ∷ [])))
        × (length (flatten (contents first ∷ contents second ∷ [])) ≤ 40) }
{
    let one = put_text(text, at, first);
    let two = put_text(text, one, second);
    keep(places, k, &[one, two]);
    two
}

// Three texts.
pub fn put_three(
    text: &mut [u8],
    places: &mut [usize],
    at: usize,
    k: usize,
    first: Text,
    second: Text,
    third: Text,
) -> usize
    ensures { (result ≡ behind_run text.old at (contents first ∷ contents second ∷ contents third ∷ []))
        × (text.new ≡ over_run text.old at (contents first ∷ contents second ∷ contents third ∷ []))
        × (places.new ≡ sets places.old k (ends text.old at (contents first ∷ contents second ∷ contents third ∷ [])))
        × (length (flatten (contents first ∷ contents second ∷ contents third ∷ [])) ≤ 60) }
{
    let one = put_text(text, at, first);
    let two = put_text(text, one, second);
    let three = put_text(text, two, third);
    keep(places, k, &[one, two, three]);
    three
}

// Two code words.
pub fn put_words(
    text: &mut [u8],
    places: &mut [usize],
    at: usize,
    k: usize,
    first: [u8; 4],
    second: [u8; 4],
) -> usize
    ensures { (result ≡ behind_run text.old at (first ∷ second ∷ []))
        × (text.new ≡ over_run text.old at (first ∷ second ∷ []))
        × (places.new ≡ sets places.old k (ends text.old at (first ∷ second ∷ [])))
        × (length (flatten (first ∷ second ∷ [])) ≤ 8) }
{
    let one = text::put(text, at, &first);
    let two = text::put(text, one, &second);
    keep(places, k, &[one, two]);
    two
}
