// The reasons of a record put into a text, one behind the other, and the places behind the code and the text of each kept.
ghost use Rattle.std.specs.Prelude.{◌≡◌, ◌≤◌, length};
ghost use mathlib.Core.List.{[], ◌∷◌, flatten};
ghost use Rattle.std.proofs.lemmas.List.Edits.{sets};
ghost use Rattle.text.specs.Texts.{contents};
ghost use Rattle.remark.specs.Remarks.{contents as remark_text};
ghost use Rattle.fill.specs.Runs.{over_run, behind_run};
ghost use Rattle.fill.specs.Places.{ends};
ghost use Rattle.answer_values.specs.Values.{reason_values};

use answer::{Answer, Reason};

// The code and the text of one, with at most 20 and 35 bytes.
fn put_reason(text: &mut [u8], places: &mut [usize], at: usize, k: usize, reason: Reason) -> usize
    ensures { (result ≡ behind_run text.old at (contents reason.code ∷ remark_text reason.text ∷ []))
        × (text.new ≡ over_run text.old at (contents reason.code ∷ remark_text reason.text ∷ []))
        × (places.new ≡ sets places.old k (ends text.old at (contents reason.code ∷ remark_text reason.text ∷ [])))
        × (length (flatten (contents reason.code ∷ remark_text reason.text ∷ [])) ≤ 55) }
{
    let code = placing::put_text(text, at, reason.code);
    let remark = remark::put(text, code, reason.text);
    placing::keep(places, k, &[code, remark]);
    remark
}

// The ten of them; one that does not stand has no bytes. The place behind the first code, which is slot 12, is the one numbered 13.
pub(crate) fn put_reasons(text: &mut [u8], places: &mut [usize], at: usize, answer: Answer) -> usize
    ensures { (result ≡ behind_run text.old at (reason_values answer 0 10))
        × (text.new ≡ over_run text.old at (reason_values answer 0 10))
        × (places.new ≡ sets places.old 13 (ends text.old at (reason_values answer 0 10)))
        × (length (flatten (reason_values answer 0 10)) ≤ 550) }
{
    let mut behind = at;
    for number in 0..10 {
        let reason = answer::reason_at(answer, number);
        behind = put_reason(text, places, behind, 13 + 2 * number, reason);
    }
    behind
}
