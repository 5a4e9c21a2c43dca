// Dates, times of day and both together: reading, judging, comparing them and putting them into a lent buffer.
//
// What is right stands in specs/Dates.
#![tactic(auto)]

ghost use Rattle.std.specs.Prelude.{◌≡◌, ◌+◌, ◌<◌, ◌≤◌, true, length, take, drop, Some};
ghost use Rattle.digits.specs.Numerals.{numeral, digits_alone};
ghost use Rattle.text.specs.Copy.{placed, after};
ghost use Rattle.calendar.specs.Dates.{leap, is_month, is_long, february, month_length, is_day, is_date, is_time, is_moment, earlier, two, date_from, time_from, date_read, read_number, moment_read, date_text, moment_text};

use text::Class;

// A date as the number YYYYMMDD that its digits spell, so that an earlier one is the lesser number.
#[derive(Clone, Copy, PartialEq, Eq, PartialOrd, Ord)]
pub struct Date(pub u64);

// A time of day as the number HHMMSS that its digits spell.
#[derive(Clone, Copy, PartialEq, Eq, PartialOrd, Ord)]
pub struct Time(pub u64);

#[derive(Clone, Copy, PartialEq, Eq, PartialOrd, Ord)]
pub struct Moment {
    pub date: Date,
    pub time: Time,
}

// The number that the desk gets for what a part was read as, a date or a moment.
pub fn number<T: Copy>(read: Option<T>) -> u64
    ensures { result ≡ read_number read }
{
    match read {
        Some(_) => 0,
        None => 12,
    }
}

#[tactic(auto, unfolding(crate::specs::Dates::leap))]
pub fn is_leap(year: u64) -> bool
    ensures { result ≡ leap year }
{
    year % 4 == 0 && (year % 100 != 0 || year % 400 == 0)
}

// A number that names a month.
#[tactic(auto, unfolding(crate::specs::Dates::is_month))]
fn is_month(month: usize) -> bool
    ensures { result ≡ is_month month }
{
    (1..=12).contains(&month)
}

// The days of February in a year.
#[tactic(auto, unfolding(crate::specs::Dates::february))]
fn february(year: u64) -> u64
    ensures { result ≡ february year }
{
    if is_leap(year) { 29 } else { 28 }
}

// Up to July the odd months are long, from August on the even ones.
#[tactic(auto, unfolding(crate::specs::Dates::is_long))]
fn is_long(month: usize) -> bool
    ensures { result ≡ is_long month }
{
    if month <= 7 {
        month % 2 == 1
    } else {
        month % 2 == 0
    }
}

// The days of a month: none of a number that names no month, those of February by the year, and of any other month by whether it is
// long.
#[tactic(auto, unfolding(crate::specs::Dates::month_length))]
pub fn month_length(year: u64, month: usize) -> u64
    ensures { result ≡ month_length year month }
{
    if !is_month(month) {
        return 0;
    }
    if month == 2 {
        return february(year);
    }
    if is_long(month) { 31 } else { 30 }
}

// A year, a month and a day name a day of the calendar.
#[tactic(auto, unfolding(crate::specs::Dates::is_month))]
fn is_day(year: u64, month: usize, day: u64) -> bool
    ensures { result ≡ is_day year month day }
{
    (1..=9999).contains(&year) && is_month(month) && 1 <= day && day <= month_length(year, month)
}

// The number of two digits at a place.
fn pair(part: &[u8], at: usize) -> u64
    requires { (at + 2 ≤ length part.now) × (digits_alone part.now ≡ true) }
    ensures { (result ≡ two part.now at) × (result < 100) }
{
    u64::from(part[at]) * 10 + u64::from(part[at + 1]) - 528
}

// The date of the first eight digits of a part. Year, month and day are read apart, so that nothing is divided for them.
fn date_in(part: &[u8]) -> Option<Date>
    requires { (8 ≤ length part.now) × (digits_alone part.now ≡ true) }
    ensures { result ≡ date_from (Some (numeral (take 8 part.now))) }
{
    let year = pair(part, 0) * 100 + pair(part, 2);
    let month = pair(part, 4);
    let day = pair(part, 6);
    if is_day(year, month as usize, day) {
        Some(Date(year * 10000 + month * 100 + day))
    } else {
        None
    }
}

// The time of day of the six digits behind those of a date.
fn time_in(part: &[u8]) -> Option<u64>
    requires { (14 ≤ length part.now) × (digits_alone part.now ≡ true) }
    ensures { result ≡ time_from (numeral (take 6 (drop 8 part.now))) }
{
    let hour = pair(part, 8);
    let minute = pair(part, 10);
    let second = pair(part, 12);
    if 23 < hour {
        return None;
    }
    if 59 < minute {
        return None;
    }
    if 59 < second {
        return None;
    }
    Some(hour * 10000 + minute * 100 + second)
}

impl Date {
    // The number is a day of the calendar.
    pub fn in_form(self) -> bool
        ensures { result ≡ is_date self.0 }
    {
        is_day(self.0 / 10000, (self.0 / 100 % 100) as usize, self.0 % 100)
    }

    // The eight digits of a part as a date.
    pub fn read(part: &[u8]) -> Option<Date>
        ensures { result ≡ date_read part.now }
    {
        if part.len() != 8 {
            return None;
        }
        if text::all_in(Class::Digit, part) {
            date_in(part)
        } else {
            None
        }
    }

    // This date is earlier than another: the numbers stand in the order of the days.
    pub fn before(self, other: Date) -> bool
        ensures { result ≡ earlier self other }
    {
        self < other
    }

    // Puts the eight digits of a date, as `text::put` puts a part; what is no date has no digits.
    #[tactic(auto, unfolding(crate::specs::Dates::date_text))]
    pub fn put(self, buf: &mut [u8], at: usize) -> usize
        ensures { (result ≡ after buf.old at (date_text self)) × (buf.new ≡ placed buf.old at (date_text self)) }
    {
        if self.in_form() {
            digits::put_digits(buf, at, 8, self.0)
        } else {
            text::put(buf, at, b"")
        }
    }
}

impl Time {
    // The number is a time of day.
    #[tactic(auto, unfolding(crate::specs::Dates::is_time))]
    pub fn in_form(self) -> bool
        ensures { result ≡ is_time self.0 }
    {
        self.0 / 10000 <= 23 && self.0 / 100 % 100 <= 59 && self.0 % 100 <= 59
    }
}

impl Moment {
    #[tactic(auto, unfolding(crate::specs::Dates::is_moment))]
    pub fn in_form(self) -> bool
        ensures { result ≡ is_moment self }
    {
        self.date.in_form() && self.time.in_form()
    }

    // The fourteen digits of a part as a date and time. Eight bytes are looked at at once, and so two of them twice: that is
    // less work than eight and six.
    pub fn read(part: &[u8]) -> Option<Moment>
        ensures { result ≡ moment_read part.now }
    {
        if part.len() != 14 {
            return None;
        }
        if !text::all_in(Class::Digit, &part[..8]) {
            return None;
        }
        if !text::all_in(Class::Digit, &part[6..]) {
            return None;
        }
        let date = date_in(part)?;
        let time = time_in(part)?;
        Some(Moment {
            date,
            time: Time(time),
        })
    }

    // Puts the fourteen digits of a date and time, as `text::put` puts a part; what is none has no digits.
    #[tactic(auto, unfolding(crate::specs::Dates::moment_text))]
    pub fn put(self, buf: &mut [u8], at: usize) -> usize
        ensures { (result ≡ after buf.old at (moment_text self)) × (buf.new ≡ placed buf.old at (moment_text self)) }
    {
        if self.in_form() {
            digits::put_digits(buf, at, 14, self.date.0 * 1_000_000 + self.time.0)
        } else {
            text::put(buf, at, b"")
        }
    }
}
