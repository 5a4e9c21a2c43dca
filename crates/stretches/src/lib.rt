// Stretches of a text: of each slot where its value begins and where it ends, as a message is read and as one is written; and of each
// field, by its slot.
//
// What is right stands in specs/Stretches and specs/Fields.
#![tactic(auto)]

ghost use Rattle.std.specs.Prelude.{◌≡◌, get_or, set};
ghost use Rattle.stretches.specs.Stretches.{between, stretch_of};
ghost use Rattle.stretches.specs.Fields.{begun_for, starts_handed, ends_handed};

// How many slots a message type may have, numbered from 0: as many places are kept.
pub const SLOTS: usize = 40;

// From one place to another of a text; nothing where they do not stand in it in that order.
#[tactic(auto, unfolding(crate::specs::Stretches::between))]
pub fn part(text: &[u8], from: usize, to: usize) -> &[u8]
    ensures { result.now ≡ between text.now from to }
{
    text.get(from..to).unwrap_or(&[])
}

// The place of a slot; 0 for one without.
pub fn at(places: &[usize], slot: usize) -> usize
    ensures { result ≡ get_or places.now slot 0 }
{
    places.get(slot).copied().unwrap_or(0)
}

// The value of a slot as a stretch of the text.
#[tactic(auto, unfolding(crate::specs::Stretches::stretch_of))]
pub fn stretch<'a, 'b>(
    text: &'a [u8],
    starts: &'b [usize],
    ends: &'b [usize],
    slot: usize,
) -> &'a [u8]
    ensures { result.now ≡ stretch_of text.now starts.now ends.now slot }
{
    part(text, at(starts, slot), at(ends, slot))
}

// Keeps a place for a slot; a slot without one is let go.
pub fn keep(places: &mut [usize], slot: usize, place: usize)
    ensures { places.new ≡ set places.old slot place }
{
    if slot < places.len() {
        places[slot] = place;
    }
}

// Where a field begins whose slot's value stands between two places: of the narrative's value, where it is there, the first byte
// is not the field's.
#[tactic(auto, unfolding(crate::specs::Fields::begun_for))]
fn begin(narrative: usize, field: usize, from: usize, to: usize) -> usize
    ensures { result ≡ begun_for narrative field from to }
{
    if field == narrative && from < to {
        from + 1
    } else {
        from
    }
}

// Hands out, field by field, where the values of their slots stand. Lent are the slot of each field, by the field's number from 0;
// which field is the narrative; and where the values of slots begin and end. A field for which there is no place is let go, and a
// place for which there is no field stays as it was.
pub fn hand_out<'a>(
    slots: &[u8],
    narrative: usize,
    begun: &'a [usize],
    ended: &'a [usize],
    starts: &mut [usize],
    ends: &mut [usize],
)
    ensures { (starts.new ≡ starts_handed narrative begun.now ended.now slots.now starts.old)
        × (ends.new ≡ ends_handed ended.now slots.now ends.old) }
{
    for (field, slot) in slots.iter().enumerate() {
        let slot = usize::from(*slot);
        let end = at(ended, slot);
        keep(starts, field, begin(narrative, field, at(begun, slot), end));
        keep(ends, field, end);
    }
}
