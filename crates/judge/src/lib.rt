// Whether the fields of a trade are in form, and the rules that its record shows by itself.
//
// What is right stands in values' specs/Writable and specs/Mt515; specs/Judging has the numbers that a record shows by itself.
#![tactic(auto)]

pub mod form;

ghost use Rattle.std.specs.Prelude.{◌≡◌};
ghost use Rattle.values.specs.Mt515.{mt515};

use lines::Verdict;
use trade::Trade;

// The rules of line 0 when a trade is written: the first of 14 to 17 that is broken, and then 20.
pub fn write_rules(trade: Trade) -> Verdict
    ensures { result ≡ mt515.write_rules trade }
{
    let rules = kinds::record_pass(trade);
    if rules.number != 0 {
        return rules;
    }
    if 31 < values::narrative_length(trade) {
        return Verdict {
            number: 20,
            line: 0,
        };
    }
    Verdict::PASS
}
