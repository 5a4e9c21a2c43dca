// The MT509 as a message type: its bytes, the record of an answer, and its rules. What is done with a message of any type is done with one
// of this.
//
// What is right stands in answer_values' specs/Mt509.
#![tactic(auto)]

mod writing;

ghost use Rattle.std.specs.Prelude.{[]};
ghost use Rattle.message_type.specs.Shape.{shape_of};
ghost use Rattle.answer_values.specs.Mt509.{mt509};
ghost use Rattle.answer_demands.proofs.Laws.{laws as answer-laws};
ghost use Rattle.answer_demands.proofs.Asked.{is-readable, fields-are, amounts-are, is-outlined, is_short};

use answer::Answer;
use lines::Verdict;
use message_type::MessageType;

pub struct Mt509;

impl MessageType for Mt509 {
    type Record = Answer;

    ghost shape = { shape_of mt509 };

    ghost amounts = { [] };

    ghost line = { 3 };

    fn header() -> &'static [u8] {
        answer_table::heads()
    }

    fn rows() -> &'static [u8] {
        answer_table::rows()
    }

    fn slots() -> &'static [u8] {
        answer_table::forms()
    }

    fn optional() -> &'static [u8] {
        &answer_values::OPTIONAL
    }

    fn amounts() -> &'static [u8] {
        &[]
    }

    fn blank() -> Answer {
        answer::blank()
    }

    fn gather<'a, 'b>(message: &'a [u8], starts: &'b [usize], ends: &'b [usize]) -> Answer {
        answer::gather(message, starts, ends)
    }

    fn read_rules<'a, 'b>(
        message: &'a [u8],
        starts: &'b [usize],
        ends: &'b [usize],
        held: Answer,
    ) -> Verdict {
        answer_rules::answer_pass(stretches::stretch(message, starts, ends, 2), held)
    }

    fn in_form(held: Answer) -> bool {
        answer_judge::form::in_form(held)
    }

    fn write_rules(held: Answer) -> Verdict {
        answer_rules::record_pass(held)
    }

    fn compose(buf: &mut [u8], held: Answer) -> usize {
        writing::compose(buf, held)
    }

    fn fields() -> usize {
        31
    }

    // No value has bytes that are not its field's.
    fn beyond(_slot: usize) -> usize {
        0
    }

    fn line() -> usize {
        3
    }

    ghost readable = { is-readable };

    ghost laws = { answer-laws };

    ghost has_fields = { fields-are };

    ghost has_amounts = { amounts-are };

    ghost outlined = { is-outlined };

    ghost short = { is_short };
}
