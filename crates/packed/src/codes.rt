// The code bytes: kind, side, service and GUPP.
ghost use Rattle.std.specs.Prelude.{◌≡◌};
ghost use Rattle.packed.specs.Packed.{at_most, kind_byte, side_byte, service_byte, period_byte, codes};

use trade::{Kind, Service, Trade};
use typed::Side;

// A number that is too great for its place is the most that the place holds.
pub(crate) fn at_most(most: u64, number: u64) -> u64
    ensures { result ≡ at_most most number }
{
    if number <= most { number } else { most }
}

fn kind_byte(kind: Kind) -> u8
    ensures { result ≡ kind_byte kind }
{
    match kind {
        Kind::Inst => 0,
        Kind::Canc => 1,
        Kind::Mdfc => 2,
        Kind::Tddk => 3,
    }
}

fn side_byte(side: Side) -> u8
    ensures { result ≡ side_byte side }
{
    match side {
        Side::Buyi => 0,
        Side::Sell => 1,
    }
}

fn service_byte(service: Service) -> u8
    ensures { result ≡ service_byte service }
{
    match service {
        Service::Sbod => 0,
        Service::Tftd => 1,
        Service::Stip => 2,
    }
}

fn period_byte(period: Option<u64>) -> u8
    ensures { result ≡ period_byte period }
{
    match period {
        None => 255,
        Some(days) => at_most(254, days) as u8,
    }
}

pub(crate) fn codes_of(trade: Trade) -> [u8; 4]
    ensures { result ≡ codes trade }
{
    let kind = trade.kind;
    let side = trade.side;
    let service = trade.service;
    let period = trade.period;
    [
        kind_byte(kind),
        side_byte(side),
        service_byte(service),
        period_byte(period),
    ]
}
