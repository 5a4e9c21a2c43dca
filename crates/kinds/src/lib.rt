// The rules of the kinds: what 23G says against the kind, and the fields that a kind must and may not have; par above zero, and
// settlement on or after the trade date. The numbers 13 to 17.
//
// What is right stands in specs/Kinds.
#![tactic(auto)]

ghost use Rattle.std.specs.Prelude.{◌≡◌};
ghost use Rattle.text.specs.Bytes.{same};
ghost use Rattle.lines.specs.Verdicts.{refused};
ghost use Rattle.kinds.specs.Kinds.{present, contra, stray, function_of, lacks_field, tddk_only, tddk_never, has_forbidden, record_pass, kinds_pass};

use lines::Verdict;
use text::Text;
use trade::{Kind, Trade};
use typed::Side;

fn refused(number: u64) -> Verdict
    ensures { result ≡ refused number 0 }
{
    Verdict { number, line: 0 }
}

fn present(text: Text) -> bool
    ensures { result ≡ present text }
{
    0 < text.len
}

// A contra reference stands in the block of the other side.
fn contra(trade: Trade) -> bool
    ensures { result ≡ contra trade }
{
    let side = trade.side;
    match side {
        Side::Buyi => present(trade.seller.reference),
        Side::Sell => present(trade.buyer.reference),
    }
}

// A contra reference stands in the block of the sender's own side.
fn stray(trade: Trade) -> bool
    ensures { result ≡ stray trade }
{
    let side = trade.side;
    match side {
        Side::Buyi => present(trade.buyer.reference),
        Side::Sell => present(trade.seller.reference),
    }
}

// 23G is the one that goes with the kind.
fn goes_with(function: &[u8], kind: Kind) -> bool
    ensures { result ≡ same (function_of kind) function.now }
{
    let newm = text::equals(function, b"NEWM");
    let canc = text::equals(function, b"CANC");
    match kind {
        Kind::Inst => newm,
        Kind::Canc => canc,
        Kind::Mdfc => newm,
        Kind::Tddk => newm,
    }
}

// A field that the kind must have is absent.
fn lacks_field(trade: Trade) -> bool
    ensures { result ≡ lacks_field trade.kind trade }
{
    let mast = present(trade.mast);
    let reason = present(trade.reason);
    let contra = contra(trade);
    let kind = trade.kind;
    match kind {
        Kind::Inst => !mast,
        Kind::Canc => !mast,
        Kind::Mdfc => !mast,
        Kind::Tddk => !contra | !reason,
    }
}

// The record has what only a TDDK may have.
fn tddk_only(trade: Trade) -> bool
    ensures { result ≡ tddk_only trade }
{
    let contra = contra(trade);
    let stray = stray(trade);
    let reason = present(trade.reason);
    contra | (stray | reason)
}

// The record has what a TDDK may not have.
fn tddk_never(trade: Trade) -> bool
    ensures { result ≡ tddk_never trade }
{
    let mast = present(trade.mast);
    let prev = present(trade.prev);
    let list = present(trade.list);
    let stray = stray(trade);
    // A period of 0 days is there.
    let days = trade.period.is_some();
    mast | (prev | (list | (stray | days)))
}

// The record has a field that its kind may not have.
fn has_forbidden(trade: Trade) -> bool
    ensures { result ≡ has_forbidden trade.kind trade }
{
    let prev = present(trade.prev);
    let list = present(trade.list);
    let only = tddk_only(trade);
    let kind = trade.kind;
    match kind {
        Kind::Inst => prev | (list | only),
        Kind::Canc => prev | only,
        Kind::Mdfc => only,
        Kind::Tddk => tddk_never(trade),
    }
}

// 14 to 17, which a record shows by itself.
pub fn record_pass(trade: Trade) -> Verdict
    ensures { result ≡ record_pass trade }
{
    let lacks = lacks_field(trade);
    let forbidden = has_forbidden(trade);
    if lacks {
        return refused(14);
    }
    if forbidden {
        return refused(15);
    }
    if trade.par.0.number == 0 {
        return refused(16);
    }
    if trade.sett.before(trade.trad.date) {
        return refused(17);
    }
    Verdict::PASS
}

// 13, and then those.
pub fn kinds_pass(function: &[u8], trade: Trade) -> Verdict
    ensures { result ≡ kinds_pass function.now trade }
{
    let kind = trade.kind;
    if !goes_with(function, kind) {
        return refused(13);
    }
    record_pass(trade)
}
