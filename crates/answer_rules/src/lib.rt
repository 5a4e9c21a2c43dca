// The rules by status: what 23G says against the status, and whether a reason and a copy go with it. The numbers 13, 14 and 15.
//
// What is right stands in specs/Rules.
#![tactic(auto)]

ghost use Rattle.std.specs.Prelude.{◌≡◌};
ghost use Rattle.lines.specs.Verdicts.{refused};
ghost use Rattle.answer_rules.specs.Rules.{goes_with, is_reject, has_reason, lacks_reason, has_forbidden, record_pass, answer_pass};

use answer::Answer;
use lines::Verdict;
use status::Status;

fn refused(number: u64) -> Verdict
    ensures { result ≡ refused number 0 }
{
    Verdict { number, line: 0 }
}

// 23G is one that goes with the status.
fn goes_with(function: &[u8], status: Status) -> bool
    ensures { result ≡ goes_with function.now status }
{
    let cast = text::equals(function, b"CAST");
    let copy = text::equals(function, b"CAST/COPY");
    if status.is_of(b"CPRC") {
        return cast | copy;
    }
    text::equals(function, b"INST")
}

fn is_reject(status: Status) -> bool
    ensures { result ≡ is_reject status }
{
    let instruction = status.is(b"IPRC//REJT");
    let cancel = status.is(b"CPRC//REJT");
    instruction | cancel
}

// The first reason stands; where it does not, none does.
fn has_reason(answer: Answer) -> bool
    ensures { result ≡ has_reason answer }
{
    let first = answer::reason_at(answer, 0);
    0 < first.code.len
}

// A reject is without a reason.
fn lacks_reason(answer: Answer) -> bool
    ensures { result ≡ lacks_reason answer }
{
    let reject = is_reject(answer.status);
    let reason = has_reason(answer);
    reject & !reason
}

// A status other than a reject has a reason, or one other than `CPRC//CAND` is a copy.
fn has_forbidden(answer: Answer) -> bool
    ensures { result ≡ has_forbidden answer }
{
    let reject = is_reject(answer.status);
    let reason = has_reason(answer);
    let done = answer.status.is(b"CPRC//CAND");
    (!reject & reason) | (answer.copy & !done)
}

// 14 and 15, which a record shows by itself.
pub fn record_pass(answer: Answer) -> Verdict
    ensures { result ≡ record_pass answer }
{
    if lacks_reason(answer) {
        return refused(14);
    }
    if has_forbidden(answer) {
        return refused(15);
    }
    Verdict::PASS
}

// 13, and then those.
pub fn answer_pass(function: &[u8], answer: Answer) -> Verdict
    ensures { result ≡ answer_pass function.now answer }
{
    if !goes_with(function, answer.status) {
        return refused(13);
    }
    record_pass(answer)
}
