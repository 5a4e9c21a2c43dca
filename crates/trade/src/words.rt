// The word of a kind and what it stands for; the first of their list where a value is none of them.
ghost use Rattle.std.specs.Prelude.{◌≡◌};
ghost use Rattle.trade.specs.Records.{kind_in};

use super::Kind;

const KINDS: [u8; 16] = *b"INSTCANCMDFCTDDK";

pub(crate) fn kind_in(value: &[u8]) -> Kind
    ensures { result ≡ kind_in value.now }
{
    match forms::word_at(&KINDS, value) {
        1 => Kind::Canc,
        2 => Kind::Mdfc,
        3 => Kind::Tddk,
        _ => Kind::Inst,
    }
}
