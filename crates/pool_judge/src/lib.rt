// Whether the fields of a pool trade are in form, and the rules that its record shows by itself.
//
// What is right stands in pool_values' specs/Writable and specs/Pool; specs/Judging has the numbers that a record shows by itself.
#![tactic(auto)]

pub mod form;

ghost use Rattle.std.specs.Prelude.{◌≡◌};
ghost use Rattle.pool_values.specs.Pool.{pool};

use lines::Verdict;
use pool_trade::PoolTrade;

// The rules of line 0 when a trade is written: the first of 14 to 17 that is broken, and then 20.
pub fn write_rules(trade: PoolTrade) -> Verdict
    ensures { result ≡ pool.write_rules trade }
{
    let rules = pool_kinds::record_pass(trade);
    if rules.number != 0 {
        return rules;
    }
    if 31 < pool_values::narrative_length(trade) {
        return Verdict {
            number: 20,
            line: 0,
        };
    }
    Verdict::PASS
}
