//! For which items lanes are woken at once.

ghost use Rattle.std.specs.Prelude.{◌≡◌};
ghost use Rattle.media_items.specs.Inputs.{input_of};
ghost use Rattle.media_front.specs.Signals.{is_pressing};

use bridge_core::Item;

/// Whether a lane is woken at once for an item. Sound waits for the next tick: until then it only fills a jitter
/// buffer.
pub(crate) fn is_pressing(item: &Item) -> bool
    ensures { result ≡ is_pressing (input_of item.now) }
{
    match item {
        Item::Audio { .. } => false,
        Item::Frame(_)
        | Item::Tick { .. }
        | Item::Nack { .. }
        | Item::Block { .. }
        | Item::Pli { .. }
        | Item::Report { .. }
        | Item::Renew => true,
    }
}
