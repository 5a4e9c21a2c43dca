// A pool trade as it is held: the record, and how it is had from the values of a message's slots.
//
// What is right stands in specs/Records and specs/Narrative.
#![tactic(auto)]

mod narrative;
mod words;

ghost use Rattle.std.specs.Prelude.{◌≡◌};
ghost use Rattle.stretches.specs.Stretches.{stretch_of};
ghost use Rattle.pool_trade.specs.Records.{party_of, trade_of, blank_trade};
ghost use Rattle.pool_trade.specs.Parts.{details_of, security_of};

use amount::{Money, Par, Price};
use calendar::{Date, Moment, Time};
use text::Text;
use typed::Side;

// The slots that are named; the others have the numbers of the fields, of which the narrative is the last.
pub const NARRATIVE: usize = 19;

const PASSWORD: usize = 20;

const SENDER: usize = 21;

// The kinds of a pool message.
#[derive(Clone, Copy)]
pub enum Kind {
    Inst,
    Canc,
    Mdfc,
    Tddk,
    Cdrq,
    Cdrl,
}

// A party: its member code and the contra reference.
#[derive(Clone, Copy)]
pub struct Party {
    pub code: Text,
    pub reference: Text,
}

// `cdr`: the pool has a CDR status, which CDRY says. `delivery`: the delivery date of the pool, DDTE.
#[derive(Clone, Copy)]
pub struct PoolTrade {
    pub kind: Kind,
    pub password: Text,
    pub sender: Text,
    pub seme: Text,
    pub mast: Text,
    pub prev: Text,
    pub list: Text,
    pub trad: Moment,
    pub sett: Date,
    pub price: Price,
    pub money: Option<Money>,
    pub side: Side,
    pub buyer: Party,
    pub seller: Party,
    pub par: Par,
    pub cusip: Text,
    pub pool: Text,
    pub cdr: bool,
    pub delivery: Option<Date>,
    pub reason: Text,
}

// The parts of a record that are gathered by themselves: the trade's details,
#[derive(Clone, Copy)]
struct Details {
    trad: Moment,
    sett: Date,
    price: Price,
    money: Option<Money>,
    side: Side,
    kind: Kind,
}

// and the security, with what the narrative tells.
#[derive(Clone, Copy)]
struct Security {
    par: Par,
    cusip: Text,
    pool: Text,
    cdr: bool,
    delivery: Option<Date>,
    reason: Text,
}

// The record that stands beside a refusal.
pub fn blank() -> PoolTrade
    ensures { result ≡ blank_trade }
{
    let none = Text::BLANK;
    let nobody = Party {
        code: none,
        reference: none,
    };
    PoolTrade {
        kind: Kind::Inst,
        password: none,
        sender: none,
        seme: none,
        mast: none,
        prev: none,
        list: none,
        trad: Moment {
            date: Date(0),
            time: Time(0),
        },
        sett: Date(0),
        price: Price::ZERO,
        money: None,
        side: Side::Buyi,
        buyer: nobody,
        seller: nobody,
        par: Par::ZERO,
        cusip: none,
        pool: none,
        cdr: false,
        delivery: None,
        reason: none,
    }
}

// A party, from its two slots.
fn party_at<'a, 'b>(
    message: &'a [u8],
    starts: &'b [usize],
    ends: &'b [usize],
    code: usize,
    reference: usize,
) -> Party
    ensures { result ≡ party_of (stretch_of message.now starts.now ends.now code) (stretch_of message.now starts.now ends.now reference) }
{
    Party {
        code: typed::text_at(message, starts, ends, code),
        reference: typed::text_at(message, starts, ends, reference),
    }
}

// TRAD, SETT, DEAL, the money, BUSE and PROC.
fn details_at<'a, 'b>(message: &'a [u8], starts: &'b [usize], ends: &'b [usize]) -> Details
    ensures { result ≡ details_of (trade_of (stretch_of message.now starts.now ends.now)) }
{
    Details {
        trad: typed::moment_at(message, starts, ends, 6),
        sett: typed::date_at(message, starts, ends, 7),
        price: Price::of(typed::amount_at(message, starts, ends, 8)),
        money: typed::payment_at(message, starts, ends, 9),
        side: typed::sides::side_in(stretches::stretch(message, starts, ends, 10)),
        kind: words::kind_in(stretches::stretch(message, starts, ends, 11)),
    }
}

// Par, CUSIP, POOL, and what the narrative tells.
fn security_at<'a, 'b>(message: &'a [u8], starts: &'b [usize], ends: &'b [usize]) -> Security
    ensures { result ≡ security_of (trade_of (stretch_of message.now starts.now ends.now)) }
{
    let narrative = stretches::stretch(message, starts, ends, NARRATIVE);
    Security {
        par: Par::of(typed::amount_at(message, starts, ends, 16)),
        cusip: typed::text_at(message, starts, ends, 17),
        pool: typed::text_at(message, starts, ends, 18),
        cdr: forms::pool::has_cdr(narrative),
        delivery: narrative::delivery_of(narrative),
        reason: narrative::reason_of(narrative),
    }
}

// The record of a message, from where the value of each slot begins and ends.
pub fn gather<'a, 'b>(message: &'a [u8], starts: &'b [usize], ends: &'b [usize]) -> PoolTrade
    ensures { result ≡ trade_of (stretch_of message.now starts.now ends.now) }
{
    let Details {
        trad,
        sett,
        price,
        money,
        side,
        kind,
    } = details_at(message, starts, ends);
    let Security {
        par,
        cusip,
        pool,
        cdr,
        delivery,
        reason,
    } = security_at(message, starts, ends);
    PoolTrade {
        kind,
        password: typed::text_at(message, starts, ends, PASSWORD),
        sender: typed::text_at(message, starts, ends, SENDER),
        seme: typed::text_at(message, starts, ends, 1),
        mast: typed::text_at(message, starts, ends, 3),
        prev: typed::text_at(message, starts, ends, 4),
        list: typed::text_at(message, starts, ends, 5),
        trad,
        sett,
        price,
        money,
        side,
        buyer: party_at(message, starts, ends, 12, 13),
        seller: party_at(message, starts, ends, 14, 15),
        par,
        cusip,
        pool,
        cdr,
        delivery,
        reason,
    }
}
