// The record that 375 bytes are, as the crate `packed` makes them, and its message.
//
// What is right stands in specs/Unpacked; specs/Back says that neither way loses anything.
#![tactic(auto)]

mod codes;
mod places;

ghost use Rattle.std.specs.Prelude.{◌≡◌, length};
ghost use Rattle.format.specs.Writing.{written_over};
ghost use Rattle.values.specs.Mt515.{mt515};
ghost use Rattle.writing.specs.Writing.{writing_of};
ghost use Rattle.unpacked.specs.Unpacked.{trade_from, trade_in, unpacked_of, record_in};

use amount::{Amount, Par, Price};
use calendar::{Date, Moment, Time};
use mt515::Mt515;
use text::Text;
use trade::{Kind, Party, Service, Trade};
use typed::Side;
use writing::Writing;

// The record that texts and numbers in the order of their places make.
fn trade_from(
    kind: Kind,
    side: Side,
    service: Service,
    period: Option<u64>,
    texts: [Text; 15],
    numbers: [u64; 7],
) -> Trade
    ensures { result ≡ trade_from kind side service period texts numbers }
{
    let prep = numbers[0];
    let trad = numbers[1];
    Trade {
        password: texts[0],
        sender: texts[1],
        seme: texts[2],
        prep: Moment {
            date: Date(prep / 1_000_000),
            time: Time(prep % 1_000_000),
        },
        mast: texts[3],
        prev: texts[4],
        list: texts[5],
        trad: Moment {
            date: Date(trad / 1_000_000),
            time: Time(trad % 1_000_000),
        },
        sett: Date(numbers[2]),
        price: Price(Amount {
            number: numbers[3],
            decimals: numbers[4] as usize,
        }),
        side,
        kind,
        buyer: Party {
            code: texts[6],
            reference: texts[7],
            trader: texts[8],
        },
        seller: Party {
            code: texts[9],
            reference: texts[10],
            trader: texts[11],
        },
        par: Par(Amount {
            number: numbers[5],
            decimals: numbers[6] as usize,
        }),
        cusip: texts[12],
        pool: texts[13],
        service,
        period,
        reason: texts[14],
    }
}

// The record of the bytes, whatever their codes name.
fn trade_in(packed: &[u8]) -> Trade
    requires { length packed.now ≡ 375 }
    ensures { result ≡ trade_in packed.now }
{
    let kind = codes::kind_from(packed[0]);
    let side = codes::side_from(packed[1]);
    let service = codes::service_from(packed[2]);
    let period = codes::period_from(packed[3]);
    let texts = places::texts_in(packed);
    let numbers = places::numbers_in(packed);
    trade_from(kind, side, service, period, texts, numbers)
}

// The record that 375 bytes are; None where a code byte names no word.
pub fn unpack(packed: &[u8; 375]) -> Option<Trade>
    ensures { result ≡ unpacked_of packed.now }
{
    codes::are_named(packed).then(|| trade_in(packed))
}

// Writes the message of the record that 375 bytes are, as `writing::write` does. Of bytes that are no record it is the blank
// one, which is refused with 18.
pub fn write(packed: &[u8; 375], buf: &mut [u8]) -> Writing
    ensures { (result ≡ writing_of mt515 (record_in packed.now) (length buf.old)) × (buf.new ≡ written_over mt515 (record_in packed.now) buf.old) }
{
    let trade = unpack(packed).unwrap_or_else(trade::blank);
    writing::write::<Mt515>(trade, buf)
}
