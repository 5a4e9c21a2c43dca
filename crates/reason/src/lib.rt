// The reason that may stand last in a narrative, `/DKRS` and 4 c: in what a narrative has left behind its other parts, and in a
// record.
//
// What is right stands in specs/Reason.
#![tactic(auto)]

ghost use Rattle.std.specs.Prelude.{◌≡◌};
ghost use Rattle.text.specs.Copy.{placed, after};
ghost use Rattle.reason.specs.Reason.{has_reason, reason_in, good_reason, reason_text, reason_form};

use text::Text;

#[tactic(auto, unfolding(crate::specs::Reason::has_reason, text::specs::Bytes::bytes))]
pub fn has(rest: &[u8]) -> bool
    ensures { result ≡ has_reason rest.now }
{
    text::begins_with(rest, b"/DKRS")
}

// What stands behind `/DKRS`; nothing where there is none.
#[tactic(auto, using(crate::proofs::Parts::key_within, text::proofs::Laws::rest_of), unfolding(crate::specs::Reason::reason_in))]
pub fn code_in(rest: &[u8]) -> &[u8]
    ensures { result.now ≡ reason_in rest.now }
{
    if has(rest) { &rest[5..] } else { &[] }
}

// A reason, where there is one, is 4 c; and nothing else is left.
#[tactic(auto, unfolding(crate::specs::Reason::good_reason))]
pub fn is_good(rest: &[u8]) -> bool
    ensures { result ≡ good_reason rest.now }
{
    if has(rest) {
        text::is_code(code_in(rest), 4, 4)
    } else {
        rest.is_empty()
    }
}

// `/DKRS` and the reason of a record as one part, as `text::put` puts a part; nothing where there is none.
pub fn put(buf: &mut [u8], at: usize, reason: Text) -> usize
    ensures { (result ≡ after buf.old at (reason_text reason)) × (buf.new ≡ placed buf.old at (reason_text reason)) }
{
    if reason.len == 0 {
        return text::put(buf, at, b"");
    }
    let mut part = *b"/DKRS                    ";
    let end = text::put_text(&mut part, 5, reason);
    text::put(buf, at, &part[..end])
}

// The reason of a record is absent or 4 c.
#[tactic(auto, unfolding(crate::specs::Reason::reason_form))]
pub fn in_form(reason: Text) -> bool
    ensures { result ≡ reason_form reason }
{
    reason.in_form(0, 0) || reason.in_form(4, 4)
}
