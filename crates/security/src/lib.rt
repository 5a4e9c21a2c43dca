// The check digit of a security: nine c, of which the ninth brings the sum of what the places add to a multiple of ten.
//
// What is right stands in specs/Security.
#![tactic(auto)]

ghost use Rattle.std.specs.Prelude.{◌≡◌, true, ◌≤◌};
ghost use Rattle.text.specs.Classes.{is_c, is_code};
ghost use Rattle.security.specs.Security.{worth, weighed, adds, sum_from, is_checked, security_number, security_form};

use text::{Class, Text};

// The value of a c: of a digit 0 to 9, of a letter 10 to 35.
#[tactic(auto, using(crate::proofs::Sums::c_kind), unfolding(crate::specs::Security::worth, text::specs::Classes::is_digit, text::specs::Classes::is_between))]
fn worth(byte: u8) -> u64
    requires { is_c byte ≡ true }
    ensures { (result ≡ worth byte) × (result ≤ 35) }
{
    let value = if byte <= b'9' {
        byte - b'0'
    } else {
        byte - b'A' + 10
    };
    u64::from(value)
}

// Doubled at every second place; places are counted from 1.
#[tactic(auto, unfolding(crate::specs::Security::weighed))]
fn weighed(place: usize, byte: u8) -> u64
    requires { is_c byte ≡ true }
    ensures { (result ≡ weighed place byte) × (result ≤ 70) }
{
    let value = worth(byte);
    if place % 2 == 0 { value * 2 } else { value }
}

// What a c adds at a place: the decimal digits of that.
#[tactic(auto, unfolding(crate::specs::Security::adds))]
fn adds(place: usize, byte: u8) -> u64
    requires { is_c byte ≡ true }
    ensures { (result ≡ adds place byte) × (result ≤ 16) }
{
    let value = weighed(place, byte);
    value / 10 + value % 10
}

fn sum(part: &[u8]) -> u64
    requires { is_code 9 9 part.now ≡ true }
    ensures { result ≡ sum_from 1 part.now }
{
    let mut sum = 0;
    for (i, byte) in part.iter().enumerate() {
        sum += adds(i + 1, *byte);
    }
    sum
}

// The ninth of nine c is their check digit.
#[tactic(auto, using(crate::proofs::Sums::code_least), unfolding(crate::specs::Security::is_checked, text::specs::Classes::in_class))]
fn is_checked(part: &[u8]) -> bool
    requires { is_code 9 9 part.now ≡ true }
    ensures { result ≡ is_checked part.now }
{
    text::in_class(Class::Digit, part[8]) && sum(part) % 10 == 0
}

// The number of a value that has to be a security.
#[tactic(auto, unfolding(crate::specs::Security::security_number))]
pub fn number(value: &[u8]) -> u64
    ensures { result ≡ security_number value.now }
{
    if !text::is_code(value, 9, 9) {
        return 10;
    }
    if is_checked(value) { 0 } else { 23 }
}

// The security of a record.
#[tactic(auto, using(crate::proofs::Sums::nine_is, crate::proofs::Sums::nine_code), unfolding(crate::specs::Security::security_form))]
pub fn in_form(security: Text) -> bool
    ensures { result ≡ security_form security }
{
    let bytes = security.bytes;
    security.in_form(9, 9) && is_checked(&bytes[..9])
}
