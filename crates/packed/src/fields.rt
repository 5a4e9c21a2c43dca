// The texts and the numbers of a record, in the order of their places.
ghost use Rattle.std.specs.Prelude.{◌≡◌};
ghost use Rattle.packed.specs.Packed.{texts, moment_packed, numbers};

use super::codes;
use calendar::Moment;
use text::Text;
use trade::Trade;

pub(crate) fn texts_of(trade: Trade) -> [Text; 15]
    ensures { result ≡ texts trade }
{
    let buyer = trade.buyer;
    let seller = trade.seller;
    let password = trade.password;
    let sender = trade.sender;
    let seme = trade.seme;
    let mast = trade.mast;
    let prev = trade.prev;
    let list = trade.list;
    let buyer_code = buyer.code;
    let buyer_reference = buyer.reference;
    let buyer_trader = buyer.trader;
    let seller_code = seller.code;
    let seller_reference = seller.reference;
    let seller_trader = seller.trader;
    let cusip = trade.cusip;
    let pool = trade.pool;
    let reason = trade.reason;
    [
        password,
        sender,
        seme,
        mast,
        prev,
        list,
        buyer_code,
        buyer_reference,
        buyer_trader,
        seller_code,
        seller_reference,
        seller_trader,
        cusip,
        pool,
        reason,
    ]
}

// The digits of a date and time as one number.
fn moment_number(moment: Moment) -> u64
    ensures { result ≡ moment_packed moment }
{
    let time = codes::at_most(999_999, moment.time.0);
    if 18_446_744_073_709 < moment.date.0 {
        return u64::MAX;
    }
    let date = moment.date.0 * 1_000_000;
    if u64::MAX - date < time {
        return u64::MAX;
    }
    date + time
}

pub(crate) fn numbers_of(trade: Trade) -> [u64; 7]
    ensures { result ≡ numbers trade }
{
    [
        moment_number(trade.prep),
        moment_number(trade.trad),
        trade.sett.0,
        trade.price.0.number,
        trade.price.0.decimals as u64,
        trade.par.0.number,
        trade.par.0.decimals as u64,
    ]
}
