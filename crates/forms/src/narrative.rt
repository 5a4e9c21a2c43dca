// The narrative, the value of 70E behind `//GSCC`: its parts, and whether it is one.
ghost use Rattle.std.specs.Prelude.{◌≡◌, drop};
ghost use Rattle.forms.specs.Words.{word_at};
ghost use Rattle.forms.specs.Narrative.{services, service_in, has_period, period_in, behind_period, good_period, is_narrative};

use text::Class;

const SERVICES: [u8; 12] = *b"SBODTFTDSTIP";

// What is left of a value from a place on.
pub(crate) fn from(value: &[u8], place: usize) -> &[u8]
    ensures { result.now ≡ drop place value.now }
{
    if value.len() < place {
        return &value[..0];
    }
    &value[place..]
}

// The word behind `/TDSV`.
fn service_in(value: &[u8]) -> &[u8]
    ensures { result.now ≡ service_in value.now }
{
    let word = from(value, 5);
    if word.len() < 4 {
        return word;
    }
    &word[..4]
}

// The place of that word among the services, counted from 0; 3 where it is none of them.
pub fn service_at(value: &[u8]) -> usize
    ensures { result ≡ word_at services (service_in value.now) }
{
    super::word_at(&SERVICES, service_in(value))
}

// A period stands behind the word.
pub fn has_period(value: &[u8]) -> bool
    ensures { result ≡ has_period value.now }
{
    text::begins_with(from(value, 9), b"/GUPP")
}

// The byte behind `/GUPP`; 0 where there is none.
pub fn period_in(value: &[u8]) -> u8
    ensures { result ≡ period_in value.now }
{
    if value.len() < 15 { 0 } else { value[14] }
}

// What is left behind the word, and behind the period where there is one.
pub fn behind_period(value: &[u8]) -> &[u8]
    ensures { result.now ≡ behind_period value.now }
{
    if has_period(value) {
        from(value, 15)
    } else {
        from(value, 9)
    }
}

// A period, where there is one, is one digit.
fn good_period(value: &[u8]) -> bool
    ensures { result ≡ good_period value.now }
{
    if has_period(value) {
        text::in_class(Class::Digit, period_in(value))
    } else {
        true
    }
}

// The value of 70E behind `//GSCC` is in its form.
pub fn is_narrative(value: &[u8]) -> bool
    ensures { result ≡ is_narrative value.now }
{
    if !text::begins_with(value, b"/TDSV") {
        return false;
    }
    if 3 <= service_at(value) {
        return false;
    }
    if !good_period(value) {
        return false;
    }
    reason::is_good(behind_period(value))
}
