// A trade as it is held: the record, and how it is had from the values of a message's slots.
//
// What is right stands in specs/Narrative and specs/Records.
#![tactic(auto)]

mod narrative;
mod words;

ghost use Rattle.std.specs.Prelude.{◌≡◌};
ghost use Rattle.stretches.specs.Stretches.{stretch_of};
ghost use Rattle.trade.specs.Records.{party_of, trade_of, blank_trade};
ghost use Rattle.trade.specs.Parts.{details_of, security_of};

use amount::{Par, Price};
use calendar::{Date, Moment, Time};
use text::Text;
use typed::Side;

// The slots that are named; the others have the numbers of document 01's fields, of which the narrative is the last.
pub const NARRATIVE: usize = 21;

const PASSWORD: usize = 28;

const SENDER: usize = 29;

// The kinds of an MT515.
#[derive(Clone, Copy)]
pub enum Kind {
    Inst,
    Canc,
    Mdfc,
    Tddk,
}

// The service of the trade.
#[derive(Clone, Copy)]
pub enum Service {
    Sbod,
    Tftd,
    Stip,
}

// A party: its member code, the contra reference and the trader's identifier.
#[derive(Clone, Copy)]
pub struct Party {
    pub code: Text,
    pub reference: Text,
    pub trader: Text,
}

// `period`: the days of the give-up period; 0 days is a period.
#[derive(Clone, Copy)]
pub struct Trade {
    pub password: Text,
    pub sender: Text,
    pub seme: Text,
    pub prep: Moment,
    pub mast: Text,
    pub prev: Text,
    pub list: Text,
    pub trad: Moment,
    pub sett: Date,
    pub price: Price,
    pub side: Side,
    pub kind: Kind,
    pub buyer: Party,
    pub seller: Party,
    pub par: Par,
    pub cusip: Text,
    pub pool: Text,
    pub service: Service,
    pub period: Option<u64>,
    pub reason: Text,
}

// The parts of a record that are gathered by themselves: the trade's details,
#[derive(Clone, Copy)]
struct Details {
    trad: Moment,
    sett: Date,
    price: Price,
    side: Side,
    kind: Kind,
}

// and the security, with what the narrative tells.
#[derive(Clone, Copy)]
struct Security {
    par: Par,
    cusip: Text,
    pool: Text,
    service: Service,
    period: Option<u64>,
    reason: Text,
}

// The record that stands beside a refusal.
pub fn blank() -> Trade
    ensures { result ≡ blank_trade }
{
    let none = Text::BLANK;
    let never = Moment {
        date: Date(0),
        time: Time(0),
    };
    let nobody = Party {
        code: none,
        reference: none,
        trader: none,
    };
    Trade {
        password: none,
        sender: none,
        seme: none,
        prep: never,
        mast: none,
        prev: none,
        list: none,
        trad: never,
        sett: Date(0),
        price: Price::ZERO,
        side: Side::Buyi,
        kind: Kind::Inst,
        buyer: nobody,
        seller: nobody,
        par: Par::ZERO,
        cusip: none,
        pool: none,
        service: Service::Sbod,
        period: None,
        reason: none,
    }
}

// A party, from its three slots.
fn party_at<'a, 'b>(
    message: &'a [u8],
    starts: &'b [usize],
    ends: &'b [usize],
    code: usize,
    reference: usize,
    trader: usize,
) -> Party
    ensures { result ≡ party_of (stretch_of message.now starts.now ends.now code) (stretch_of message.now starts.now ends.now reference) (stretch_of message.now starts.now ends.now trader) }
{
    Party {
        code: typed::text_at(message, starts, ends, code),
        reference: typed::text_at(message, starts, ends, reference),
        trader: typed::text_at(message, starts, ends, trader),
    }
}

// TRAD, SETT, DEAL, BUSE and PROC.
fn details_at<'a, 'b>(message: &'a [u8], starts: &'b [usize], ends: &'b [usize]) -> Details
    ensures { result ≡ details_of (trade_of (stretch_of message.now starts.now ends.now)) }
{
    Details {
        trad: typed::moment_at(message, starts, ends, 7),
        sett: typed::date_at(message, starts, ends, 8),
        price: Price::of(typed::amount_at(message, starts, ends, 9)),
        side: typed::sides::side_in(stretches::stretch(message, starts, ends, 10)),
        kind: words::kind_in(stretches::stretch(message, starts, ends, 11)),
    }
}

// Par, CUSIP, POOL, and what the narrative tells.
fn security_at<'a, 'b>(message: &'a [u8], starts: &'b [usize], ends: &'b [usize]) -> Security
    ensures { result ≡ security_of (trade_of (stretch_of message.now starts.now ends.now)) }
{
    let narrative = stretches::stretch(message, starts, ends, NARRATIVE);
    Security {
        par: Par::of(typed::amount_at(message, starts, ends, 18)),
        cusip: typed::text_at(message, starts, ends, 19),
        pool: typed::text_at(message, starts, ends, 20),
        service: narrative::service_of(narrative),
        period: narrative::period_of(narrative),
        reason: narrative::reason_of(narrative),
    }
}

// The record of a message, from where the value of each slot begins and ends.
pub fn gather<'a, 'b>(message: &'a [u8], starts: &'b [usize], ends: &'b [usize]) -> Trade
    ensures { result ≡ trade_of (stretch_of message.now starts.now ends.now) }
{
    let Details {
        trad,
        sett,
        price,
        side,
        kind,
    } = details_at(message, starts, ends);
    let Security {
        par,
        cusip,
        pool,
        service,
        period,
        reason,
    } = security_at(message, starts, ends);
    Trade {
        password: typed::text_at(message, starts, ends, PASSWORD),
        sender: typed::text_at(message, starts, ends, SENDER),
        seme: typed::text_at(message, starts, ends, 1),
        prep: typed::moment_at(message, starts, ends, 3),
        mast: typed::text_at(message, starts, ends, 4),
        prev: typed::text_at(message, starts, ends, 5),
        list: typed::text_at(message, starts, ends, 6),
        trad,
        sett,
        price,
        side,
        kind,
        buyer: party_at(message, starts, ends, 12, 13, 14),
        seller: party_at(message, starts, ends, 15, 16, 17),
        par,
        cusip,
        pool,
        service,
        period,
        reason,
    }
}
