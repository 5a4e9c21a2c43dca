// The narrative of a pool netting member, the value of 70E behind `//DTCY`: its parts, and its number.
ghost use Rattle.std.specs.Prelude.{◌≡◌};
ghost use Rattle.forms.specs.Pool.{has_cdr, behind_cdr, has_delivery, delivery_in, behind_delivery, is_pool_shape, pool_number};

use super::narrative::from;
use calendar::Date;

// `/CDRY` stands behind `/TDSVPOOL`.
pub fn has_cdr(value: &[u8]) -> bool
    ensures { result ≡ has_cdr value.now }
{
    text::begins_with(from(value, 9), b"/CDRY")
}

// What is left behind `/TDSVPOOL`, and behind `/CDRY` where it is there.
fn behind_cdr(value: &[u8]) -> &[u8]
    ensures { result.now ≡ behind_cdr value.now }
{
    if has_cdr(value) {
        from(value, 14)
    } else {
        from(value, 9)
    }
}

// A delivery date stands there.
pub fn has_delivery(value: &[u8]) -> bool
    ensures { result ≡ has_delivery value.now }
{
    text::begins_with(behind_cdr(value), b"/DDTE")
}

// All between `/DDTE` and the next slash, or the end where there is none.
pub fn delivery_in(value: &[u8]) -> &[u8]
    ensures { result.now ≡ delivery_in value.now }
{
    let date = from(behind_cdr(value), 5);
    &date[..text::find(date, b'/')]
}

// What is left behind the delivery date, where there is one.
pub fn behind_delivery(value: &[u8]) -> &[u8]
    ensures { result.now ≡ behind_delivery value.now }
{
    let rest = behind_cdr(value);
    if !has_delivery(value) {
        return rest;
    }
    let date = from(rest, 5);
    from(date, text::find(date, b'/'))
}

fn is_shape(value: &[u8]) -> bool
    ensures { result ≡ is_pool_shape value.now }
{
    if !text::begins_with(value, b"/TDSVPOOL") {
        return false;
    }
    reason::is_good(behind_delivery(value))
}

// The number of the value of 70E behind `//DTCY`.
pub fn number(value: &[u8]) -> u64
    ensures { result ≡ pool_number value.now }
{
    if !is_shape(value) {
        return 10;
    }
    if !has_delivery(value) {
        return 0;
    }
    calendar::number(Date::read(delivery_in(value)))
}
