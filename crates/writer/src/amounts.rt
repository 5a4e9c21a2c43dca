// The amounts of a message moved in to their shortest text, so that a message is put in plain form from its own text.
ghost use Rattle.std.specs.Prelude.{◌≡◌, ◌+◌, get_or, set};
ghost use Rattle.amount.specs.Amounts.{shortest_of};
ghost use Rattle.stretches.specs.Stretches.{between, stretch_of};

use amount::Trim;

// From where to where the shortest text of an amount stands in a message, by the places of the amount.
fn within(message: &[u8], start: usize, end: usize) -> Trim
    ensures { result ≡ record { from = start + (shortest_of (between message.now start end)).from; to = start + (shortest_of (between message.now start end)).to } }
{
    let part = amount::shortest(stretches::part(message, start, end));
    Trim {
        from: start + part.from,
        to: start + part.to,
    }
}

// Moves the places of a slot in to the shortest text of the amount that stands there; where nothing stands nothing will.
pub fn move_in(message: &[u8], starts: &mut [usize], ends: &mut [usize], slot: usize)
    ensures { (starts.new ≡ set starts.old slot (get_or starts.old slot 0 + (shortest_of (stretch_of message.now starts.old ends.old slot)).from)) × (ends.new ≡ set ends.old slot (get_or starts.old slot 0 + (shortest_of (stretch_of message.now starts.old ends.old slot)).to)) }
{
    let part = within(
        message,
        stretches::at(starts, slot),
        stretches::at(ends, slot),
    );
    stretches::keep(starts, slot, part.from);
    stretches::keep(ends, slot, part.to);
}
