//! Runs of a bridge, of which the headline speaks.

ghost use Rattle.std.specs.Prelude.{◌≡◌, true, [], ◌∷◌, map, IfSome};
ghost use Rattle.desk_rows.specs.Desk.{blank};
ghost use Rattle.desk_edit.specs.Asked.{asked_by};
ghost use Rattle.desk_edit.specs.Calls.{no_calls};
ghost use Rattle.media_items.specs.Inputs.{input_of, is_sized};
ghost use Rattle.bridge_core.specs.Sent.{sent_of};
ghost use Rattle.bridge_core.specs.Events.{Event, steps_of};
ghost use Rattle.bridge_core.specs.WholeRuns.{Holds};

use bridge_core::{Core, Egress, Item, Settings, the_headline};
use desk_calls::Reply;
use desk_edit::Call;
use rtp_codec::Address;
use std::alloc::Global;

/// What a new bridge of three lanes sends for an item behind a call: all that the headline promises
/// holds of it, whatever the call and the item are.
pub fn sends_what_was_promised(
    alloc: Global,
    settings: Settings,
    call: Call,
    item: &Item,
) -> Option<Vec<Egress>>
    requires { is_sized (input_of item.now) ≡ true }
    ensures { IfSome result (λ sent. Holds
        (record { ssrc = settings.bridge_ssrc; cname = settings.cname }) 3 (blank settings.bridge_ssrc)
        (steps_of (no_calls (blank settings.bridge_ssrc))
        (Event.called (asked_by call) ∷ Event.item 2 (input_of item.now) ∷ []))
        (map sent_of sent.items ∷ [])) }
{
    let Ok(mut core) = Core::new(alloc, 3, settings) else {
        return None;
    };
    the_headline();
    match core.desk(alloc, 0, call) {
        Reply::Accepted { no: _ } => {}
        Reply::Refused { at: _, why: _ } => return None,
    }
    match core.item(alloc, 2, item) {
        Ok(sent) => Some(sent),
        Err(_) => None,
    }
}

/// What two lanes of the same bridge send for an item, where a datagram is taken in before the first lane handles it,
/// and the receiver reports are asked for before the second one does: all that the headline promises holds of it. The
/// call and the two items are its events; what the receive side does between them is none.
pub fn sends_what_was_promised_between_datagrams(
    alloc: Global,
    settings: Settings,
    call: Call,
    octets: &[u8],
    item: &Item,
) -> Option<(Vec<Egress>, Vec<Egress>)>
    requires { is_sized (input_of item.now) ≡ true }
    ensures { IfSome result (λ sent. Holds
        (record { ssrc = settings.bridge_ssrc; cname = settings.cname }) 3 (blank settings.bridge_ssrc)
        (steps_of (no_calls (blank settings.bridge_ssrc))
        (Event.called (asked_by call) ∷ Event.item 2 (input_of item.now) ∷ Event.item 0 (input_of item.now) ∷ []))
        (map sent_of sent.0.items ∷ map sent_of sent.1.items ∷ [])) }
{
    let Ok(mut core) = Core::new(alloc, 3, settings) else {
        return None;
    };
    the_headline();
    match core.desk(alloc, 0, call) {
        Reply::Accepted { no: _ } => {}
        Reply::Refused { at: _, why: _ } => return None,
    }
    let from = Address {
        ip: [127, 0, 0, 1],
        port: 7,
    };
    let Ok(_heard) = core.datagram(alloc, &from, 1_000_000_000, octets) else {
        return None;
    };
    let Ok(sent) = core.item(alloc, 2, item) else {
        return None;
    };
    let Ok(_reports) = core.reports(alloc, 2_000_000_000) else {
        return None;
    };
    match core.item(alloc, 0, item) {
        Ok(later) => Some((sent, later)),
        Err(_) => None,
    }
}
