// An answer as it is held: the record of an MT509, and how it is had from the values of a message's slots.
//
// What is right stands in specs/Records.
#![tactic(auto)]

ghost use Rattle.std.specs.Prelude.{◌≡◌};
ghost use Rattle.stretches.specs.Stretches.{stretch_of};
ghost use Rattle.answer.specs.Records.{reason_of, reasons_of, reason_at, answer_of, blank_answer};
ghost use Rattle.answer.specs.Parts.{links_of};

use calendar::{Date, Moment, Time};
use remark::Remark;
use status::Status;
use text::Text;

// The slots that are named: the others have the numbers of the fields, and these two stand behind them.
const PASSWORD: usize = 32;

const RECEIVER: usize = 33;

// A reason: its code, and its text, which need not be there. One without a code does not stand.
#[derive(Clone, Copy)]
pub struct Reason {
    pub code: Text,
    pub text: Remark,
}

#[derive(Clone, Copy)]
pub struct Answer {
    pub copy: bool,
    pub status: Status,
    pub password: Text,
    pub receiver: Text,
    pub seme: Text,
    pub mast: Text,
    pub prev: Text,
    pub rela: Text,
    pub list: Text,
    pub bask: Text,
    pub prog: Text,
    pub comm: Text,
    pub prep: Moment,
    pub reasons: [Reason; 10],
}

// The references of the LINK blocks, which are gathered by themselves.
#[derive(Clone, Copy)]
struct Links {
    mast: Text,
    prev: Text,
    rela: Text,
    list: Text,
    bask: Text,
    prog: Text,
    comm: Text,
}

impl Reason {
    pub const BLANK: Reason = Reason {
        code: Text::BLANK,
        text: remark::BLANK,
    };
}

// The record that stands beside a refusal.
pub fn blank() -> Answer
    ensures { result ≡ blank_answer }
{
    let none = Text::BLANK;
    let never = Moment {
        date: Date(0),
        time: Time(0),
    };
    let reason = Reason::BLANK;
    Answer {
        copy: false,
        status: Status(0),
        password: none,
        receiver: none,
        seme: none,
        mast: none,
        prev: none,
        rela: none,
        list: none,
        bask: none,
        prog: none,
        comm: none,
        prep: never,
        reasons: [reason; 10],
    }
}

// The reason with a number, counted from 0; the blank one behind the tenth.
pub fn reason_at(answer: Answer, number: usize) -> Reason
    ensures { result ≡ reason_at answer number }
{
    if 10 <= number {
        return Reason::BLANK;
    }
    answer.reasons[number]
}

// A reason, from its two slots.
fn reason_in<'a, 'b>(
    message: &'a [u8],
    starts: &'b [usize],
    ends: &'b [usize],
    code: usize,
    text: usize,
) -> Reason
    ensures { result ≡ reason_of (stretch_of message.now starts.now ends.now code) (stretch_of message.now starts.now ends.now text) }
{
    Reason {
        code: typed::text_at(message, starts, ends, code),
        text: remark::of(stretches::stretch(message, starts, ends, text)),
    }
}

// The reasons, each from two slots, which stand one behind the other.
fn reasons_in<'a, 'b>(message: &'a [u8], starts: &'b [usize], ends: &'b [usize]) -> [Reason; 10]
    ensures { result ≡ reasons_of (stretch_of message.now starts.now ends.now) }
{
    let reason = Reason::BLANK;
    let mut reasons = [reason; 10];
    for (k, reason) in reasons.iter_mut().enumerate() {
        *reason = reason_in(message, starts, ends, 12 + 2 * k, 13 + 2 * k);
    }
    reasons
}

// MAST, PREV, RELA, LIST, BASK, PROG and COMM.
fn links_in<'a, 'b>(message: &'a [u8], starts: &'b [usize], ends: &'b [usize]) -> Links
    ensures { result ≡ links_of (answer_of (stretch_of message.now starts.now ends.now)) }
{
    Links {
        mast: typed::text_at(message, starts, ends, 4),
        prev: typed::text_at(message, starts, ends, 5),
        rela: typed::text_at(message, starts, ends, 6),
        list: typed::text_at(message, starts, ends, 7),
        bask: typed::text_at(message, starts, ends, 8),
        prog: typed::text_at(message, starts, ends, 9),
        comm: typed::text_at(message, starts, ends, 10),
    }
}

// The record of a message, from where the value of each slot begins and ends.
pub fn gather<'a, 'b>(message: &'a [u8], starts: &'b [usize], ends: &'b [usize]) -> Answer
    ensures { result ≡ answer_of (stretch_of message.now starts.now ends.now) }
{
    let Links {
        mast,
        prev,
        rela,
        list,
        bask,
        prog,
        comm,
    } = links_in(message, starts, ends);
    Answer {
        copy: text::equals(stretches::stretch(message, starts, ends, 2), b"CAST/COPY"),
        status: Status::of(stretches::stretch(message, starts, ends, 11)),
        password: typed::text_at(message, starts, ends, PASSWORD),
        receiver: typed::text_at(message, starts, ends, RECEIVER),
        seme: typed::text_at(message, starts, ends, 1),
        mast,
        prev,
        rela,
        list,
        bask,
        prog,
        comm,
        prep: typed::moment_at(message, starts, ends, 3),
        reasons: reasons_in(message, starts, ends),
    }
}
