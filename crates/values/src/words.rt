// The code words that a record's cases are written as.
ghost use Rattle.std.specs.Prelude.{◌≡◌, ◌++◌};
ghost use Rattle.text.specs.Bytes.{bytes};
ghost use Rattle.kinds.specs.Kinds.{function_of};
ghost use Rattle.values.specs.Values.{kind_word, service_word};

use trade::{Kind, Service};

// 23G follows from the kind.
pub(crate) fn function_word(kind: Kind) -> [u8; 4]
    ensures { result ≡ function_of kind }
{
    match kind {
        Kind::Inst => *b"NEWM",
        Kind::Canc => *b"CANC",
        Kind::Mdfc => *b"NEWM",
        Kind::Tddk => *b"NEWM",
    }
}

pub fn kind_word(kind: Kind) -> [u8; 4]
    ensures { result ≡ kind_word kind }
{
    match kind {
        Kind::Inst => *b"INST",
        Kind::Canc => *b"CANC",
        Kind::Mdfc => *b"MDFC",
        Kind::Tddk => *b"TDDK",
    }
}

// The service with its key.
pub(crate) fn service_text(service: Service) -> [u8; 9]
    ensures { result ≡ bytes "/TDSV" ++ service_word service }
{
    match service {
        Service::Sbod => *b"/TDSVSBOD",
        Service::Tftd => *b"/TDSVTFTD",
        Service::Stip => *b"/TDSVSTIP",
    }
}
