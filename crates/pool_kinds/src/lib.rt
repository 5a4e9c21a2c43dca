// The rules of the kinds of a pool message: what 23G says against the kind, and the fields that a kind must and may not have; par above
// zero, and settlement on or after the trade date. The numbers 13 to 17.
//
// What is right stands in specs/Kinds.
#![tactic(auto)]

ghost use Rattle.std.specs.Prelude.{◌≡◌};
ghost use Rattle.text.specs.Bytes.{same};
ghost use Rattle.lines.specs.Verdicts.{refused};
ghost use Rattle.pool_kinds.specs.Kinds.{present, function_of, needs, contra, stray, there, some_of, record_pass, kinds_pass};

use lines::Verdict;
use pool_trade::{Kind, PoolTrade};
use text::Text;
use typed::Side;

fn refused(number: u64) -> Verdict
    ensures { result ≡ refused number 0 }
{
    Verdict { number, line: 0 }
}

fn present(text: Text) -> bool
    ensures { result ≡ present text }
{
    0 < text.len
}

// A contra reference stands in the block of the other side.
fn contra(trade: PoolTrade) -> bool
    ensures { result ≡ contra trade }
{
    let side = trade.side;
    match side {
        Side::Buyi => present(trade.seller.reference),
        Side::Sell => present(trade.buyer.reference),
    }
}

// A contra reference stands in the block of the sender's own side.
fn stray(trade: PoolTrade) -> bool
    ensures { result ≡ stray trade }
{
    let side = trade.side;
    match side {
        Side::Buyi => present(trade.buyer.reference),
        Side::Sell => present(trade.seller.reference),
    }
}

// 23G is the one that goes with the kind.
fn goes_with(function: &[u8], kind: Kind) -> bool
    ensures { result ≡ same (function_of kind) function.now }
{
    let newm = text::equals(function, b"NEWM");
    let canc = text::equals(function, b"CANC");
    match kind {
        Kind::Inst => newm,
        Kind::Canc => canc,
        Kind::Mdfc => newm,
        Kind::Tddk => newm,
        Kind::Cdrq => newm,
        Kind::Cdrl => newm,
    }
}

// What a kind must have (M), may have (O) and may not have (-): MAST, PREV, LIST, a contra reference in the other side's block and in its
// own side's, CDRY, DKRS.
fn needs(kind: Kind) -> [u8; 7]
    ensures { result ≡ needs kind }
{
    match kind {
        Kind::Inst => *b"M----O-",
        Kind::Canc => *b"MOO--O-",
        Kind::Mdfc => *b"MOO--O-",
        Kind::Tddk => *b"O--M--M",
        Kind::Cdrq => *b"M-O--O-",
        Kind::Cdrl => *b"M-O--O-",
    }
}

// Which of these a record has.
fn there(trade: PoolTrade) -> [bool; 7]
    ensures { result ≡ there trade }
{
    let mast = present(trade.mast);
    let prev = present(trade.prev);
    let list = present(trade.list);
    let contra = contra(trade);
    let stray = stray(trade);
    let reason = present(trade.reason);
    [mast, prev, list, contra, stray, trade.cdr, reason]
}

// Some field with this letter is there, or is not.
fn some_of(letter: u8, is: bool, letters: [u8; 7], there: [bool; 7]) -> bool
    ensures { result ≡ some_of letter is letters there }
{
    letters
        .iter()
        .zip(there.iter())
        .any(|(own, has)| *own == letter && *has == is)
}

// 14 to 17, which a record shows by itself.
pub fn record_pass(trade: PoolTrade) -> Verdict
    ensures { result ≡ record_pass trade }
{
    let kind = trade.kind;
    let letters = needs(kind);
    let has = there(trade);
    if some_of(b'M', false, letters, has) {
        return refused(14);
    }
    if some_of(b'-', true, letters, has) {
        return refused(15);
    }
    if trade.par.0.number == 0 {
        return refused(16);
    }
    if trade.sett.before(trade.trad.date) {
        return refused(17);
    }
    Verdict::PASS
}

// 13, and then those.
pub fn kinds_pass(function: &[u8], trade: PoolTrade) -> Verdict
    ensures { result ≡ kinds_pass function.now trade }
{
    let kind = trade.kind;
    if !goes_with(function, kind) {
        return refused(13);
    }
    record_pass(trade)
}
