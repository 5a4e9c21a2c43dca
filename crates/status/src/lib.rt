// The status of an answer: one of the thirty values of 25D, held as its number in their list.
//
// What is right stands in specs/Statuses.
#![tactic(auto)]

ghost use Rattle.std.specs.Prelude.{◌≡◌};
ghost use Rattle.text.specs.Bytes.{begins, same};
ghost use Rattle.text.specs.Copy.{placed, after};
ghost use Rattle.status.specs.Statuses.{status_of, status_text, status_form};

// A number from 0 to 29, where it is in form.
#[derive(Clone, Copy)]
pub struct Status(pub usize);

// Twenty bytes a line, as a message type holds its words: three that say nothing, the length of a value, the value.
const STATUSES: [u8; 600] = *b"\x00\x00\x00\x0aIPRC//PACK      \
    \x00\x00\x00\x0aIPRC//REJT      \
    \x00\x00\x00\x0eIPRC/GSCC/MODA  \
    \x00\x00\x00\x0eIPRC/GSCC/MODP  \
    \x00\x00\x00\x0eIPRC/GSCC/PAMS  \
    \x00\x00\x00\x0eIPRC/GSCC/YPPR  \
    \x00\x00\x00\x0eIPRC/GSCC/PADK  \
    \x00\x00\x00\x0eIPRC/GSCC/DPPR  \
    \x00\x00\x00\x0eIPRC/GSCC/DELE  \
    \x00\x00\x00\x0eIPRC/GSCC/DEPS  \
    \x00\x00\x00\x0eIPRC/GSCC/DESA  \
    \x00\x00\x00\x0eIPRC/GSCC/TUNB  \
    \x00\x00\x00\x0eIPRC/GSCC/TBAL  \
    \x00\x00\x00\x0eIPRC/GSCC/DNAL  \
    \x00\x00\x00\x0aCPRC//PACK      \
    \x00\x00\x00\x0aCPRC//REJT      \
    \x00\x00\x00\x0aCPRC//CAND      \
    \x00\x00\x00\x0eCPRC/GSCC/PACS  \
    \x00\x00\x00\x0eCPRC/GSCC/XPPR  \
    \x00\x00\x00\x0eCPRC/GSCC/UPBP  \
    \x00\x00\x00\x0eCPRC/GSCC/UPBR  \
    \x00\x00\x00\x0eCPRC/GSCC/UPBC  \
    \x00\x00\x00\x0eCPRC/GSCC/VPBP  \
    \x00\x00\x00\x0eCPRC/GSCC/VPBR  \
    \x00\x00\x00\x0eCPRC/GSCC/VPBC  \
    \x00\x00\x00\x0eCPRC/GSCC/CDNA  \
    \x00\x00\x00\x0aMTCH//MACH      \
    \x00\x00\x00\x0eMTCH/GSCC/MAPL  \
    \x00\x00\x00\x0eMTCH/GSCC/MAPS  \
    \x00\x00\x00\x0eMTCH/GSCC/MAFM  ";

impl Status {
    // The status that a value is; the first where it is none of the thirty.
    pub fn of(value: &[u8]) -> Status
        ensures { result ≡ status_of value.now }
    {
        let place = forms::word_in(&STATUSES, 0, 30, value);
        if place < 30 {
            return Status(place);
        }
        Status(0)
    }

    pub fn in_form(self) -> bool
        ensures { result ≡ status_form self }
    {
        self.0 < 30
    }

    // The value of the status is this one.
    pub fn is(self, value: &[u8]) -> bool
        ensures { result ≡ same value.now (status_text self) }
    {
        text::equals(forms::fixed_text(&STATUSES, self.0), value)
    }

    // The value of the status begins with a qualifier.
    pub fn is_of(self, qualifier: &[u8]) -> bool
        ensures { result ≡ begins qualifier.now (status_text self) }
    {
        text::begins_with(forms::fixed_text(&STATUSES, self.0), qualifier)
    }

    // Puts the value of the status, as `text::put` puts a part; a number that is none has no value.
    pub fn put(self, buf: &mut [u8], at: usize) -> usize
        ensures { (result ≡ after buf.old at (status_text self)) × (buf.new ≡ placed buf.old at (status_text self)) }
    {
        text::put(buf, at, forms::fixed_text(&STATUSES, self.0))
    }
}
