// A text from its 21 bytes and a number from its 8, and the rows of them.
ghost use Rattle.std.specs.Prelude.{◌≡◌, ◌<◌, length};
ghost use Rattle.unpacked.specs.Unpacked.{text_from, number_from, texts_in, numbers_in};

use text::Text;

fn text_from(place: &[u8]) -> Text
    requires { length place.now ≡ 21 }
    ensures { result ≡ text_from place.now }
{
    let mut bytes = [0u8; 20];
    text::put(&mut bytes, 0, &place[1..]);
    Text {
        bytes,
        len: place[0] as usize,
    }
}

fn number_from(place: &[u8]) -> u64
    requires { length place.now ≡ 8 }
    ensures { result ≡ number_from place.now }
{
    let mut bytes = [0u8; 8];
    bytes.copy_from_slice(place);
    u64::from_le_bytes(bytes)
}

pub(crate) fn texts_in(packed: &[u8]) -> [Text; 15]
    requires { length packed.now ≡ 375 }
    ensures { result ≡ texts_in packed.now }
{
    let mut texts = [Text::BLANK; 15];
    for (i, text) in texts.iter_mut().enumerate() {
        let at = 4 + i * 21;
        *text = text_from(&packed[at..at + 21]);
    }
    texts
}

pub(crate) fn numbers_in(packed: &[u8]) -> [u64; 7]
    requires { length packed.now ≡ 375 }
    ensures { result ≡ numbers_in packed.now }
{
    let mut numbers = [0u64; 7];
    for (i, number) in numbers.iter_mut().enumerate() {
        let at = 319 + i * 8;
        *number = number_from(&packed[at..at + 8]);
    }
    numbers
}
