// The MT515 as a message type: its bytes, the record of a trade, and its rules. What is done with a message of any type is done with
// one of this.
//
// What is right stands in values' specs/Mt515.
#![tactic(auto)]

mod writing;

ghost use Rattle.std.specs.Prelude.{[], ◌∷◌};
ghost use Rattle.message_type.specs.Shape.{shape_of};
ghost use Rattle.values.specs.Mt515.{mt515};
ghost use Rattle.demands.proofs.Laws.{laws as trade-laws};
ghost use Rattle.demands.proofs.Asked.{is-readable, fields-are, amounts-are, is-outlined, is_short};

use lines::Verdict;
use message_type::MessageType;
use trade::Trade;

pub struct Mt515;

impl MessageType for Mt515 {
    type Record = Trade;

    ghost shape = { shape_of mt515 };

    ghost amounts = { 9 ∷ 18 ∷ [] };

    ghost line = { 1 };

    fn header() -> &'static [u8] {
        table::heads()
    }

    fn rows() -> &'static [u8] {
        table::rows()
    }

    fn slots() -> &'static [u8] {
        table::forms()
    }

    fn optional() -> &'static [u8] {
        &values::OPTIONAL
    }

    fn amounts() -> &'static [u8] {
        &[9, 18]
    }

    fn blank() -> Trade {
        trade::blank()
    }

    fn gather<'a, 'b>(message: &'a [u8], starts: &'b [usize], ends: &'b [usize]) -> Trade {
        trade::gather(message, starts, ends)
    }

    fn read_rules<'a, 'b>(
        message: &'a [u8],
        starts: &'b [usize],
        ends: &'b [usize],
        held: Trade,
    ) -> Verdict {
        kinds::kinds_pass(stretches::stretch(message, starts, ends, 2), held)
    }

    fn in_form(held: Trade) -> bool {
        judge::form::in_form(held)
    }

    fn write_rules(held: Trade) -> Verdict {
        judge::write_rules(held)
    }

    fn compose(buf: &mut [u8], held: Trade) -> usize {
        writing::compose(buf, held)
    }

    fn fields() -> usize {
        trade::NARRATIVE
    }

    // Of the narrative the first byte is not the field's.
    fn beyond(slot: usize) -> usize {
        if slot == trade::NARRATIVE { 1 } else { 0 }
    }

    fn line() -> usize {
        1
    }

    ghost readable = { is-readable };

    ghost laws = { trade-laws };

    ghost has_fields = { fields-are };

    ghost has_amounts = { amounts-are };

    ghost outlined = { is-outlined };

    ghost short = { is_short };
}
