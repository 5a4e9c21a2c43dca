// The values of a record put into a text, by the slots of a block at a time, and the place behind each kept.
//
// Beside what it puts each says how many bytes that is at most, so that 787 have room for all.
ghost use Rattle.std.specs.Prelude.{◌≡◌, ◌≤◌, length, take, drop};
ghost use mathlib.Core.List.{flatten};
ghost use Rattle.std.proofs.lemmas.List.Edits.{sets};
ghost use Rattle.text.specs.Copy.{placed, after};
ghost use Rattle.fill.specs.Runs.{over_run, behind_run};
ghost use Rattle.fill.specs.Places.{ends};
ghost use Rattle.answer_rules.specs.Rules.{function_of};
ghost use Rattle.answer_values.specs.Values.{values};

use answer::Answer;

// 23G, which is not held: a copy tells itself by it, and else it follows from the status.
fn put_function(buf: &mut [u8], at: usize, answer: Answer) -> usize
    ensures { (result ≡ after buf.old at (function_of answer)) × (buf.new ≡ placed buf.old at (function_of answer)) }
{
    if answer.copy {
        return text::put(buf, at, b"CAST/COPY");
    }
    if answer.status.is_of(b"CPRC") {
        return text::put(buf, at, b"CAST");
    }
    text::put(buf, at, b"INST")
}

// SEME, 23G and PREP.
pub(crate) fn put_general(text: &mut [u8], places: &mut [usize], answer: Answer) -> usize
    ensures { (result ≡ behind_run text.old 0 (take 3 (drop 1 (values answer))))
        × (text.new ≡ over_run text.old 0 (take 3 (drop 1 (values answer))))
        × (places.new ≡ sets places.old 2 (ends text.old 0 (take 3 (drop 1 (values answer)))))
        × (length (flatten (take 3 (drop 1 (values answer)))) ≤ 43) }
{
    let seme = placing::put_text(text, 0, answer.seme);
    let function = put_function(text, seme, answer);
    let prep = answer.prep.put(text, function);
    placing::keep(places, 2, &[seme, function, prep]);
    prep
}

// MAST, PREV, RELA, LIST, BASK, PROG and COMM.
pub(crate) fn put_links(text: &mut [u8], places: &mut [usize], at: usize, answer: Answer) -> usize
    ensures { (result ≡ behind_run text.old at (take 7 (drop 4 (values answer))))
        × (text.new ≡ over_run text.old at (take 7 (drop 4 (values answer))))
        × (places.new ≡ sets places.old 5 (ends text.old at (take 7 (drop 4 (values answer)))))
        × (length (flatten (take 7 (drop 4 (values answer)))) ≤ 140) }
{
    let list = placing::put_three(text, places, at, 5, answer.mast, answer.prev, answer.rela);
    let prog = placing::put_two(text, places, list, 8, answer.list, answer.bask);
    placing::put_two(text, places, prog, 10, answer.prog, answer.comm)
}

// 25D.
pub(crate) fn put_status(text: &mut [u8], places: &mut [usize], at: usize, answer: Answer) -> usize
    ensures { (result ≡ behind_run text.old at (take 1 (drop 11 (values answer))))
        × (text.new ≡ over_run text.old at (take 1 (drop 11 (values answer))))
        × (places.new ≡ sets places.old 12 (ends text.old at (take 1 (drop 11 (values answer)))))
        × (length (flatten (take 1 (drop 11 (values answer)))) ≤ 14) }
{
    let status = answer.status.put(text, at);
    placing::keep(places, 12, &[status]);
    status
}
