// The value of a slot as what a record holds: a text, a date, a moment, an amount or a payment, from where it stands in a message;
// and the side of a trade.
//
// Nothing here knows a message type. What is right stands in specs/Typed, specs/Sides, specs/Payments and specs/Prep.
#![tactic(auto)]

pub mod payments;
pub mod sides;

ghost use Rattle.std.specs.Prelude.{◌≡◌};
ghost use Rattle.text.specs.Texts.{text_of};
ghost use Rattle.amount.specs.Amounts.{amount_read};
ghost use Rattle.calendar.specs.Dates.{date_read, moment_read};
ghost use Rattle.stretches.specs.Stretches.{stretch_of};
ghost use Rattle.typed.specs.Typed.{amount_or0, date_or0, moment_or0};
ghost use Rattle.typed.specs.Payments.{payment_in};
ghost use Rattle.typed.specs.Prep.{prep_form};

use amount::{Amount, Money};
use calendar::{Date, Moment, Time};
use text::Text;

// Whether the sender buys or sells.
#[derive(Clone, Copy)]
pub enum Side {
    Buyi,
    Sell,
}

// A text.
pub fn text_at<'a, 'b>(
    message: &'a [u8],
    starts: &'b [usize],
    ends: &'b [usize],
    slot: usize,
) -> Text
    ensures { result ≡ text_of (stretch_of message.now starts.now ends.now slot) }
{
    Text::of(stretches::stretch(message, starts, ends, slot))
}

// A date and time; date 0 and time 0 where the value is none.
pub fn moment_at<'a, 'b>(
    message: &'a [u8],
    starts: &'b [usize],
    ends: &'b [usize],
    slot: usize,
) -> Moment
    ensures { result ≡ moment_or0 (moment_read (stretch_of message.now starts.now ends.now slot)) }
{
    Moment::read(stretches::stretch(message, starts, ends, slot)).unwrap_or(Moment {
        date: Date(0),
        time: Time(0),
    })
}

// A date; 0 where the value is none.
pub fn date_at<'a, 'b>(
    message: &'a [u8],
    starts: &'b [usize],
    ends: &'b [usize],
    slot: usize,
) -> Date
    ensures { result ≡ date_or0 (date_read (stretch_of message.now starts.now ends.now slot)) }
{
    Date::read(stretches::stretch(message, starts, ends, slot)).unwrap_or(Date(0))
}

// An amount; zero where the value is none.
pub fn amount_at<'a, 'b>(
    message: &'a [u8],
    starts: &'b [usize],
    ends: &'b [usize],
    slot: usize,
) -> Amount
    ensures { result ≡ amount_or0 (amount_read (stretch_of message.now starts.now ends.now slot)) }
{
    Amount::read(stretches::stretch(message, starts, ends, slot)).unwrap_or(Amount::ZERO)
}

// A payment, a sum of money that need not be there; a sum of zero is there. None where there is no value, and a sum of zero where the
// value is none.
pub fn payment_at<'a, 'b>(
    message: &'a [u8],
    starts: &'b [usize],
    ends: &'b [usize],
    slot: usize,
) -> Option<Money>
    ensures { result ≡ payment_in (stretch_of message.now starts.now ends.now slot) }
{
    let value = stretches::stretch(message, starts, ends, slot);
    if value.len() == 0 {
        return None;
    }
    Some(Money::of(amount_at(message, starts, ends, slot)))
}

// A moment of a record that need not be there is in form: absent is date 0 and time 0, and nothing else.
pub fn prep_form(prep: Moment) -> bool
    ensures { result ≡ prep_form prep }
{
    let absent = (prep.date.0 == 0) & (prep.time.0 == 0);
    let moment = prep.in_form();
    absent | moment
}
