// The code bytes: kind, side, service and GUPP.
ghost use Rattle.std.specs.Prelude.{◌≡◌, ◌≤◌, length};
ghost use Rattle.unpacked.specs.Unpacked.{named, kind_from, side_from, service_from, period_from};

use trade::{Kind, Service};
use typed::Side;

// Each code byte names a word of its list.
pub(crate) fn are_named(packed: &[u8]) -> bool
    requires { 3 ≤ length packed.now }
    ensures { result ≡ named packed.now }
{
    let kind = packed[0] <= 3;
    let side = packed[1] <= 1;
    let service = packed[2] <= 2;
    kind & (side & service)
}

pub(crate) fn kind_from(byte: u8) -> Kind
    ensures { result ≡ kind_from byte }
{
    match byte {
        1 => Kind::Canc,
        2 => Kind::Mdfc,
        3 => Kind::Tddk,
        _ => Kind::Inst,
    }
}

pub(crate) fn side_from(byte: u8) -> Side
    ensures { result ≡ side_from byte }
{
    match byte {
        1 => Side::Sell,
        _ => Side::Buyi,
    }
}

pub(crate) fn service_from(byte: u8) -> Service
    ensures { result ≡ service_from byte }
{
    match byte {
        1 => Service::Tftd,
        2 => Service::Stip,
        _ => Service::Sbod,
    }
}

pub(crate) fn period_from(byte: u8) -> Option<u64>
    ensures { result ≡ period_from byte }
{
    if byte == 255 { None } else { Some(byte as u64) }
}
