// Exact amounts: reading, judging and putting them. Par, price and money are three types around one amount, so that none is
// ever taken for another.
//
// What is right stands in specs/Amounts.
#![tactic(auto)]

ghost use Rattle.std.specs.Prelude.{◌≡◌, ◌-◌, ◌^◌, ◌≤◌, ◌<◌, length, take};
ghost use Rattle.text.specs.Copy.{placed, after};
ghost use Rattle.amount.specs.Amounts.{shortened, noughts, parts_read, amount_read, amount_number, in_form, spread, amount_text, nought, most, shortest_of};

// The digits of an amount as one whole number, and how many of them are decimals.
#[derive(Clone, Copy)]
pub struct Amount {
    pub number: u64,
    pub decimals: usize,
}

// The number that the desk gets for what a part was read as.
pub fn number(read: Option<Amount>) -> u64
    ensures { result ≡ amount_number read }
{
    match read {
        Some(_) => 0,
        None => 11,
    }
}

// How many bytes are left of decimals without the noughts at their end.
fn lasting(part: &[u8]) -> usize
    ensures { result ≡ length (shortened part.now) }
{
    let noughts = part
        .iter()
        .rev()
        .position(|digit| *digit != b'0')
        .unwrap_or(part.len());
    part.len() - noughts
}

// How many noughts stand in front.
pub fn leading(part: &[u8]) -> usize
    ensures { result ≡ noughts part.now }
{
    part.iter()
        .position(|byte| *byte != b'0')
        .unwrap_or(part.len())
}

// From where to where the shortest text of an amount stands in its text.
#[derive(Clone, Copy)]
pub struct Trim {
    pub from: usize,
    pub to: usize,
}

// How many noughts stand in front of the last byte.
fn needless(whole: &[u8]) -> usize
    ensures { result ≡ noughts (take (length whole.now - 1) whole.now) }
{
    let n = whole.len();
    if n == 0 {
        return 0;
    }
    leading(&whole[..n - 1])
}

// The part of an amount's text that is its shortest text; of a text without a comma, all of it.
pub fn shortest(part: &[u8]) -> Trim
    ensures { result ≡ shortest_of part.now }
{
    let cut = text::find(part, b',');
    if part.len() == cut {
        return Trim { from: 0, to: cut };
    }
    let from = needless(&part[..cut]);
    let kept = lasting(&part[cut + 1..]);
    Trim {
        from,
        to: cut + 1 + kept,
    }
}

// The amount that the number of a whole part and decimals mean, where these are digits. The noughts at their end are digits, so
// that only what is left of them has to be looked at.
fn from_parts(whole: u64, rest: &[u8]) -> Option<Amount>
    requires { (length rest.now ≤ 13) × (whole < 10 ^ (14 - length rest.now)) }
    ensures { result ≡ parts_read whole rest.now }
{
    let decimals = lasting(rest);
    let tail = digits::read_digits(&rest[..decimals])?;
    Some(Amount {
        number: whole * digits::ten_to(decimals) + tail,
        decimals,
    })
}

impl Amount {
    pub const ZERO: Amount = Amount {
        number: 0,
        decimals: 0,
    };

    // Fourteen nines: the most that fifteen characters with a comma can say.
    pub const MAX: Amount = Amount {
        number: 99_999_999_999_999,
        decimals: 0,
    };

    pub fn zero() -> Amount
        ensures { result ≡ nought }
    {
        Amount::ZERO
    }

    pub fn largest() -> Amount
        ensures { result ≡ most }
    {
        Amount::MAX
    }

    // A part of a message as an amount.
    pub fn read(part: &[u8]) -> Option<Amount>
        ensures { result ≡ amount_read part.now }
    {
        if 15 < part.len() {
            return None;
        }
        let run = digits::front(part);
        let cut = run.len;
        if cut == part.len() {
            return None;
        }
        if part[cut] != b',' {
            return None;
        }
        if cut == 0 {
            return None;
        }
        from_parts(run.number, &part[cut + 1..])
    }

    // An amount of a record is in its shortest form, and has a text.
    pub fn in_form(self) -> bool
        ensures { result ≡ in_form self }
    {
        if Amount::MAX.number < self.number {
            return false;
        }
        if 13 < self.decimals {
            return false;
        }
        if self.decimals == 0 {
            return true;
        }
        self.number % 10 != 0
    }

    // Puts the shortest text of an amount, as `text::put` puts a part; what is not in form has no text.
    pub fn put(self, buf: &mut [u8], at: usize) -> usize
        ensures { (result ≡ after buf.old at (amount_text self)) × (buf.new ≡ placed buf.old at (amount_text self)) }
    {
        if !self.in_form() {
            return text::put(buf, at, b"");
        }
        let decimals = self.decimals;
        let line = spread_out(self.number, decimals);
        let from = leading(&line[..13 - decimals]);
        text::put(buf, at, &line[from..])
    }
}

// Fourteen digits, with the comma before the last `decimals` of them.
fn spread_out(number: u64, decimals: usize) -> [u8; 15]
    requires { decimals ≤ 13 }
    ensures { result ≡ spread (record { number = number; decimals = decimals }) }
{
    let mut all = [b'0'; 14];
    digits::put_digits(&mut all, 0, 14, number);
    let cut = 14 - decimals;
    let mut line = [b','; 15];
    text::put(&mut line, 0, &all[..cut]);
    text::put(&mut line, cut + 1, &all[cut..]);
    line
}

// The face value of a trade.
#[derive(Clone, Copy)]
pub struct Par(pub Amount);

impl Par {
    pub const ZERO: Par = Par(Amount::ZERO);

    pub const MAX: Par = Par(Amount::MAX);

    pub fn zero() -> Par
        ensures { result ≡ record { 0 = nought } }
    {
        Par::ZERO
    }

    pub fn largest() -> Par
        ensures { result ≡ record { 0 = most } }
    {
        Par::MAX
    }

    pub fn of(amount: Amount) -> Par
        ensures { result ≡ record { 0 = amount } }
    {
        Par(amount)
    }
}

// The price of a trade.
#[derive(Clone, Copy)]
pub struct Price(pub Amount);

impl Price {
    pub const ZERO: Price = Price(Amount::ZERO);

    pub const MAX: Price = Price(Amount::MAX);

    pub fn zero() -> Price
        ensures { result ≡ record { 0 = nought } }
    {
        Price::ZERO
    }

    pub fn largest() -> Price
        ensures { result ≡ record { 0 = most } }
    {
        Price::MAX
    }

    pub fn of(amount: Amount) -> Price
        ensures { result ≡ record { 0 = amount } }
    {
        Price(amount)
    }
}

// A sum of money.
#[derive(Clone, Copy)]
pub struct Money(pub Amount);

impl Money {
    pub const ZERO: Money = Money(Amount::ZERO);

    pub const MAX: Money = Money(Amount::MAX);

    pub fn zero() -> Money
        ensures { result ≡ record { 0 = nought } }
    {
        Money::ZERO
    }

    pub fn largest() -> Money
        ensures { result ≡ record { 0 = most } }
    {
        Money::MAX
    }

    pub fn of(amount: Amount) -> Money
        ensures { result ≡ record { 0 = amount } }
    {
        Money(amount)
    }
}
