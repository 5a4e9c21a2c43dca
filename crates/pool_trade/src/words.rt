// The kind by its code word; the first of the list where a value is none of them.
ghost use Rattle.std.specs.Prelude.{◌≡◌};
ghost use Rattle.pool_trade.specs.Records.{kind_in};

use super::Kind;

const KINDS: [u8; 24] = *b"INSTCANCMDFCTDDKCDRQCDRL";

pub(crate) fn kind_in(value: &[u8]) -> Kind
    ensures { result ≡ kind_in value.now }
{
    match forms::word_at(&KINDS, value) {
        1 => Kind::Canc,
        2 => Kind::Mdfc,
        3 => Kind::Tddk,
        4 => Kind::Cdrq,
        5 => Kind::Cdrl,
        _ => Kind::Inst,
    }
}
