// The bytes that messages are made of: their classes, a part of a message held against a key, the texts of a record, and
// putting bytes into a buffer that the caller lends.
//
// What is right stands in specs/: Bytes, Classes, Texts and Copy.
#![tactic(auto)]

ghost use Rattle.std.specs.Prelude.{◌≡◌, ◌+◌, ◌%◌, ◌<◌, ◌≤◌, length, take, drop};
ghost use Rattle.text.specs.Bytes.{begins, same, before, little};
ghost use Rattle.text.specs.Classes.{is_between, is_c, is_hyphened, in_class, all_in, is_all, is_code};
ghost use Rattle.text.specs.Texts.{contents, padded_of, in_form_of, in_form};
ghost use Rattle.text.specs.Copy.{placed, after};
ghost use Rattle.text.specs.declared.Class.TheVariants.{Printed};

// The classes that the values of documents 01 and 02 are made of, and the zero byte behind a text.
#[derive(Clone, Copy)]
pub enum Class {
    C,
    Digit,
    Upper,
    Hyphened,
    Printed,
    Zero,
}

// A part in a room of N bytes: the first `len` are the part and the others are zero, where it is in form.
#[derive(Clone, Copy)]
pub struct Padded<const N: usize> {
    pub bytes: [u8; N],
    pub len: usize,
}

// A text of a record.
pub type Text = Padded<20>;

#[tactic(auto, unfolding(crate::specs::Classes::is_between))]
fn between(byte: u8, low: u8, high: u8) -> bool
    ensures { result ≡ is_between low high byte }
{
    low <= byte && byte <= high
}

#[tactic(auto, unfolding(crate::specs::Classes::is_c, crate::specs::Classes::is_upper, crate::specs::Classes::is_digit))]
fn is_c(byte: u8) -> bool
    ensures { result ≡ is_c byte }
{
    between(byte, b'A', b'Z') || between(byte, b'0', b'9')
}

#[tactic(auto, unfolding(crate::specs::Classes::is_hyphened))]
fn is_hyphened(byte: u8) -> bool
    ensures { result ≡ is_hyphened byte }
{
    is_c(byte) || byte == b'-'
}

#[tactic(auto, unfolding(crate::specs::Classes::in_class, crate::specs::Classes::is_upper, crate::specs::Classes::is_digit))]
pub fn in_class(class: Class, byte: u8) -> bool
    ensures { result ≡ in_class class byte }
{
    match class {
        Class::C => is_c(byte),
        Class::Digit => between(byte, b'0', b'9'),
        Class::Upper => between(byte, b'A', b'Z'),
        Class::Hyphened => is_hyphened(byte),
        Class::Printed => between(byte, b' ', b'~'),
        Class::Zero => byte == 0,
    }
}

// The remainder of a byte. One below n is its own, so that nothing is divided for it; by 0 every byte is its own.
pub fn remainder(byte: u8, n: u8) -> u8
    ensures { result ≡ byte % n }
{
    if byte < n || n == 0 { byte } else { byte % n }
}

// Every byte of a part is of a class. Each is looked at, also behind one that is not, so that the machine can look at many at once.
pub fn all_in(class: Class, part: &[u8]) -> bool
    ensures { result ≡ all_in class part.now }
{
    let mut good = true;
    for byte in part {
        good &= in_class(class, *byte);
    }
    good
}

// From a least to a most number of bytes of a class.
pub fn is_all(class: Class, part: &[u8], least: usize, most: usize) -> bool
    ensures { result ≡ is_all class least most part.now }
{
    least <= part.len() && part.len() <= most && all_in(class, part)
}

// From a least to a most number of c.
#[tactic(auto, unfolding(crate::specs::Classes::is_code))]
pub fn is_code(part: &[u8], least: usize, most: usize) -> bool
    ensures { result ≡ is_code least most part.now }
{
    is_all(Class::C, part, least, most)
}

// Four bytes of a part as one number, the first of them the lowest.
#[tactic(auto, using(crate::proofs::Words::half_is))]
fn half(part: &[u8], at: usize) -> u64
    requires { at + 4 ≤ length part.now }
    ensures { (result ≡ little (take 4 (drop at part.now))) × (result < 4294967296) }
{
    u64::from(part[at])
        + 256 * u64::from(part[at + 1])
        + 65536 * u64::from(part[at + 2])
        + 16777216 * u64::from(part[at + 3])
}

// Eight bytes of a part as one number: a word, which the machine reads at once.
#[tactic(auto, using(crate::proofs::Words::word_is))]
fn word(part: &[u8], at: usize) -> u64
    requires { at + 8 ≤ length part.now }
    ensures { result ≡ little (take 8 (drop at part.now)) }
{
    half(part, at) + 4294967296 * half(part, at + 4)
}

// A part begins with a key that is not longer, byte by byte.
fn begins_by_bytes(part: &[u8], key: &[u8]) -> bool
    requires { length key.now ≤ length part.now }
    ensures { result ≡ begins key.now part.now }
{
    part.iter().zip(key).all(|(byte, wanted)| byte == wanted)
}

// The same with a key of four to eight bytes: its first four and its last four, which may overlap.
fn begins_by_halves(part: &[u8], key: &[u8]) -> bool
    requires { (length key.now ≤ length part.now) × (4 ≤ length key.now) × (length key.now ≤ 8) }
    ensures { result ≡ begins key.now part.now }
{
    let last = key.len() - 4;
    half(part, 0) == half(key, 0) && half(part, last) == half(key, last)
}

// The same with a key of eight bytes or more: a word at a time, and then its last eight bytes, of which some may be known.
// An own loop, made for speed: the same over `as_chunks` is no faster.
fn begins_by_words(part: &[u8], key: &[u8]) -> bool
    requires { (length key.now ≤ length part.now) × (8 ≤ length key.now) }
    ensures { result ≡ begins key.now part.now }
{
    let n = key.len();
    let mut i = 0;
    while 8 <= n - i {
        if word(part, i) != word(key, i) {
            return false;
        }
        i += 8;
    }
    let last = n - 8;
    word(part, last) == word(key, last)
}

// A part of a message begins with a key. Each line is held against many keys, so a longer one is compared several bytes at a time.
#[tactic(auto, using(crate::proofs::Scans::begins_short))]
pub fn begins_with(part: &[u8], key: &[u8]) -> bool
    ensures { result ≡ begins key.now part.now }
{
    if part.len() < key.len() {
        return false;
    }
    match key.len() {
        0..=3 => begins_by_bytes(part, key),
        4..=7 => begins_by_halves(part, key),
        _ => begins_by_words(part, key),
    }
}

// A part of a message is a key, byte for byte.
#[tactic(auto, using(crate::proofs::Scans::same_short, crate::proofs::Scans::same_long))]
pub fn equals(part: &[u8], key: &[u8]) -> bool
    ensures { result ≡ same key.now part.now }
{
    part.len() == key.len() && begins_with(part, key)
}

// How many bytes of a part stand before the first one that is `byte`; all of them where there is none.
pub fn find(part: &[u8], byte: u8) -> usize
    ensures { result ≡ length (before byte part.now) }
{
    part.iter().position(|b| *b == byte).unwrap_or(part.len())
}

// Puts a part into a lent buffer at a place and answers the place behind it. Where the room is short nothing is put and
// the place stays, so that half of a part is never seen. A run of several parts is whole only where their joint length was
// measured first.
pub fn put(buf: &mut [u8], at: usize, part: &[u8]) -> usize
    ensures { (result ≡ after buf.old at part.now) × (buf.new ≡ placed buf.old at part.now) }
{
    if buf.len() < at || buf.len() - at < part.len() {
        return at;
    }
    // Byte by byte: the method that copies a part into another is a call of memmove, which a C program would have to bring along.
    for (i, byte) in part.iter().enumerate() {
        buf[at + i] = *byte;
    }
    at + part.len()
}

// The same of a part in its room: only the part is put, and not the zero bytes behind it.
#[tactic(auto, unfolding(crate::specs::Texts::contents))]
pub fn put_text<const N: usize>(buf: &mut [u8], at: usize, text: Padded<N>) -> usize
    ensures { (result ≡ after buf.old at (contents text.entry)) × (buf.new ≡ placed buf.old at (contents text.entry)) }
{
    let bytes = text.bytes;
    let len = text.len;
    put(buf, at, &bytes[..len.min(N)])
}

impl<const N: usize> Padded<N> {
    // A part of a message in a room; one that is longer gives none, and is never cut. So its width is to be judged on the part, before.
    #[tactic(auto, using(crate::proofs::Scans::room_of, crate::proofs::Scans::no_room))]
    pub fn of(part: &[u8]) -> Padded<N>
        ensures { result ≡ padded_of N part.now }
    {
        if N < part.len() {
            return Padded {
                bytes: [0; N],
                len: 0,
            };
        }
        let mut bytes = [0u8; N];
        let len = put(&mut bytes, 0, part);
        Padded { bytes, len }
    }

    // It is in form for a slot that takes from `least` to `most` bytes of a class.
    #[tactic(auto, using(crate::proofs::Laws::rest_of), unfolding(crate::specs::Texts::in_form_of, crate::specs::Texts::contents))]
    pub fn in_form_of(self, class: Class, least: usize, most: usize) -> bool
        ensures { result ≡ in_form_of class least most self.entry }
    {
        let bytes = &self.bytes[..];
        let len = self.len;
        len <= N
            && least <= len
            && len <= most
            && all_in(class, &bytes[..len])
            && all_in(Class::Zero, &bytes[len..])
    }
}

impl Padded<20> {
    pub const BLANK: Text = Padded {
        bytes: [0; 20],
        len: 0,
    };

    // A text is in form for a slot that takes from `least` to `most` c.
    #[tactic(auto, unfolding(crate::specs::Texts::in_form, crate::specs::Texts::in_form_of))]
    pub fn in_form(self, least: usize, most: usize) -> bool
        ensures { result ≡ in_form least most self }
    {
        self.in_form_of(Class::C, least, most)
    }
}

// The text of a reason, whose bytes are other ones than a text's: `remark::Remark`.
impl Padded<35> {
    pub const BLANK: Padded<35> = Padded {
        bytes: [0; 35],
        len: 0,
    };

    // It is in form for a slot that takes from `least` to `most` bytes that can be printed.
    pub fn in_form(self, least: usize, most: usize) -> bool
        ensures { result ≡ in_form_of Printed least most self }
    {
        self.in_form_of(Class::Printed, least, most)
    }

    // Puts the text, as `put` puts a part, and not the zero bytes behind it.
    pub fn put(self, buf: &mut [u8], at: usize) -> usize
        ensures { (result ≡ after buf.old at (contents self)) × (buf.new ≡ placed buf.old at (contents self)) }
    {
        put_text(buf, at, self)
    }
}
