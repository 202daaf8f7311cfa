//! How much the rate limiter leaves out.

ghost use Rattle.std.specs.Prelude.{◌≡◌};
ghost use Rattle.media_items.specs.Inputs.{input_of};
ghost use Rattle.media_front.specs.LeftOut.{none_limited, lacks, more_if, counting};

use bridge_core::Item;
use bridge_stats::Limited;

/// Nothing was left out.
pub(crate) fn none_limited() -> Limited
    ensures { result ≡ none_limited }
{
    Limited {
        nacks: 0,
        blocks: 0,
        plis: 0,
    }
}

/// Whether less is granted than so much.
fn lacks(granted: Option<u64>, count: u64) -> bool
    ensures { result ≡ lacks granted count }
{
    match granted {
        Some(granted) => granted < count,
        None => false,
    }
}

/// One more, if this is so.
fn more_if(is_so: bool, count: u64) -> u64
    ensures { result ≡ more_if is_so count }
{
    if is_so {
        count.saturating_add(1)
    } else {
        count
    }
}

/// Counts an item, of which so much is granted, where something of it is left out.
pub(crate) fn count_left_out(limited: &mut Limited, granted: Option<u64>, item: &Item)
    ensures { limited.new ≡ counting granted (input_of item.now) limited.old }
{
    match item {
        Item::Nack { numbers, .. } => {
            let is_cut = lacks(granted, numbers.len() as u64);
            limited.nacks = more_if(is_cut, limited.nacks);
        }
        Item::Block { .. } => limited.blocks = more_if(lacks(granted, 1), limited.blocks),
        Item::Pli { .. } => limited.plis = more_if(lacks(granted, 1), limited.plis),
        Item::Frame(_)
        | Item::Audio { .. }
        | Item::Tick { .. }
        | Item::Report { .. }
        | Item::Renew => {}
    }
}
