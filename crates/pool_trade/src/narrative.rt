// What the narrative means: the delivery date and the reason. That the pool has a CDR status is told by its mark alone.
ghost use Rattle.std.specs.Prelude.{◌≡◌};
ghost use Rattle.pool_trade.specs.Narrative.{delivery_of, reason_of};

use calendar::Date;
use text::Text;

pub(crate) fn delivery_of(value: &[u8]) -> Option<Date>
    ensures { result ≡ delivery_of value.now }
{
    if !forms::pool::has_delivery(value) {
        return None;
    }
    Some(Date::read(forms::pool::delivery_in(value)).unwrap_or(Date(0)))
}

pub(crate) fn reason_of(value: &[u8]) -> Text
    ensures { result ≡ reason_of value.now }
{
    Text::of(reason::code_in(forms::pool::behind_delivery(value)))
}
