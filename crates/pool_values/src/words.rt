// The code words that a kind is written as.
ghost use Rattle.std.specs.Prelude.{◌≡◌};
ghost use Rattle.pool_kinds.specs.Kinds.{function_of};
ghost use Rattle.pool_values.specs.Values.{kind_word};

use pool_trade::Kind;

// 23G follows from the kind.
pub(crate) fn function_word(kind: Kind) -> [u8; 4]
    ensures { result ≡ function_of kind }
{
    match kind {
        Kind::Inst => *b"NEWM",
        Kind::Canc => *b"CANC",
        Kind::Mdfc => *b"NEWM",
        Kind::Tddk => *b"NEWM",
        Kind::Cdrq => *b"NEWM",
        Kind::Cdrl => *b"NEWM",
    }
}

pub(crate) fn kind_word(kind: Kind) -> [u8; 4]
    ensures { result ≡ kind_word kind }
{
    match kind {
        Kind::Inst => *b"INST",
        Kind::Canc => *b"CANC",
        Kind::Mdfc => *b"MDFC",
        Kind::Tddk => *b"TDDK",
        Kind::Cdrq => *b"CDRQ",
        Kind::Cdrl => *b"CDRL",
    }
}
