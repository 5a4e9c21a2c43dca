// What the narrative means: its service, its period and its reason.
ghost use Rattle.std.specs.Prelude.{◌≡◌};
ghost use Rattle.text.specs.Texts.{text_of};
ghost use Rattle.reason.specs.Reason.{reason_in};
ghost use Rattle.forms.specs.Narrative.{behind_period};
ghost use Rattle.trade.specs.Narrative.{service_of, period_of};

use super::Service;
use text::Text;

pub(crate) fn service_of(value: &[u8]) -> Service
    ensures { result ≡ service_of value.now }
{
    match forms::narrative::service_at(value) {
        1 => Service::Tftd,
        2 => Service::Stip,
        _ => Service::Sbod,
    }
}

pub(crate) fn period_of(value: &[u8]) -> Option<u64>
    ensures { result ≡ period_of value.now }
{
    if !forms::narrative::has_period(value) {
        return None;
    }
    let digit = forms::narrative::period_in(value);
    if digit <= b'0' {
        return Some(0);
    }
    Some(u64::from(digit - b'0'))
}

pub(crate) fn reason_of(value: &[u8]) -> Text
    ensures { result ≡ text_of (reason_in (behind_period value.now)) }
{
    Text::of(reason::code_in(forms::narrative::behind_period(value)))
}
