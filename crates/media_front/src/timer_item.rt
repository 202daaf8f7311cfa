//! Items that the front makes itself.

ghost use Rattle.std.specs.Prelude.{◌≡◌};
ghost use Rattle.media_items.specs.Inputs.{input_of};
ghost use Rattle.media_front.specs.inner.TimerItems.{input_at};

use bridge_core::Item;

/// An item that the front makes itself. Moments are in nanoseconds since 1970.
#[derive(Clone, Copy)]
pub(crate) enum TimerItem {
    Tick { moment: u64 },
    Report { moment: u64 },
    Renew,
}

impl TimerItem {
    /// The item. It takes no memory.
    pub(crate) fn item(self) -> Item
        ensures { input_of result ≡ input_at self }
    {
        match self {
            TimerItem::Tick { moment } => Item::Tick { moment },
            TimerItem::Report { moment } => Item::Report { moment },
            TimerItem::Renew => Item::Renew,
        }
    }
}
