// The MT515 of pool netting as a message type: its bytes, the record of a trade, and its rules. What is done with a message of any type is done with
// one of this.
//
// What is right stands in pool_values' specs/Pool.
#![tactic(auto)]

mod writing;

ghost use Rattle.std.specs.Prelude.{[], ◌∷◌};
ghost use Rattle.message_type.specs.Shape.{shape_of};
ghost use Rattle.pool_values.specs.Pool.{pool};
ghost use Rattle.pool_demands.proofs.Laws.{laws as trade-laws};
ghost use Rattle.pool_demands.proofs.Asked.{is-readable, fields-are, amounts-are, is-outlined, is_short};

use lines::Verdict;
use message_type::MessageType;
use pool_trade::PoolTrade;

pub struct Pool;

impl MessageType for Pool {
    type Record = PoolTrade;

    ghost shape = { shape_of pool };

    ghost amounts = { 8 ∷ 9 ∷ 16 ∷ [] };

    ghost line = { 1 };

    fn header() -> &'static [u8] {
        pool_table::heads()
    }

    fn rows() -> &'static [u8] {
        pool_table::rows()
    }

    fn slots() -> &'static [u8] {
        pool_table::forms()
    }

    fn optional() -> &'static [u8] {
        &pool_values::OPTIONAL
    }

    fn amounts() -> &'static [u8] {
        &[8, 9, 16]
    }

    fn blank() -> PoolTrade {
        pool_trade::blank()
    }

    fn gather<'a, 'b>(message: &'a [u8], starts: &'b [usize], ends: &'b [usize]) -> PoolTrade {
        pool_trade::gather(message, starts, ends)
    }

    fn read_rules<'a, 'b>(
        message: &'a [u8],
        starts: &'b [usize],
        ends: &'b [usize],
        held: PoolTrade,
    ) -> Verdict {
        pool_kinds::kinds_pass(stretches::stretch(message, starts, ends, 2), held)
    }

    fn in_form(held: PoolTrade) -> bool {
        pool_judge::form::in_form(held)
    }

    fn write_rules(held: PoolTrade) -> Verdict {
        pool_judge::write_rules(held)
    }

    fn compose(buf: &mut [u8], held: PoolTrade) -> usize {
        writing::compose(buf, held)
    }

    fn fields() -> usize {
        pool_trade::NARRATIVE
    }

    // Of the narrative the first byte is not the field's.
    fn beyond(slot: usize) -> usize {
        if slot == pool_trade::NARRATIVE { 1 } else { 0 }
    }

    fn line() -> usize {
        1
    }

    ghost readable = { is-readable };

    ghost laws = { trade-laws };

    ghost has_fields = { fields-are };

    ghost has_amounts = { amounts-are };

    ghost outlined = { is-outlined };

    ghost short = { is_short };
}
