//! A new bridge that is given an item, by the laws of whole runs.

ghost use Rattle.std.specs.Prelude.{◌≡◌, ◌%◌, ℕ, true, [], ◌∷◌, length, map, None, IfSome};
ghost use Rattle.desk_rows.specs.Desk.{Desk, blank};
ghost use Rattle.mixer.specs.Mixes.{mixes};
ghost use Rattle.media_items.specs.Inputs.{input_of, is_sized};
ghost use Rattle.bridge_core.specs.Sent.{sent_of};
ghost use Rattle.bridge_core.specs.Lanes.{given_of, goes, packets};
ghost use Rattle.bridge_core.specs.Steps.{Step, HasTaken, sends, visits};
ghost use Rattle.bridge_core.specs.Named.{StreamKind, firsts, sent_on};
ghost use Rattle.bridge_core.specs.Headline.{numbered_of};

use bridge_core::{
    Core, Egress, Item, Settings, all_that_is_sent, lane_count_does_not_matter,
    mixes_are_mix_lists, streams_are_routed_lists,
};
use std::alloc::Global;

/// What a new bridge of three lanes sends for its first item is what is given for this run, whose streams are their
/// lists.
pub fn sends_its_lists(alloc: Global, settings: Settings, item: &Item) -> Option<Vec<Egress>>
    requires { is_sized (input_of item.now) ≡ true }
    ensures given { IfSome result (λ sent. map sent_of sent.items ∷ []
        ≡ sends (record { ssrc = settings.bridge_ssrc; cname = settings.cname }) 3 (blank settings.bridge_ssrc)
        (Step.item 2 (input_of item.now) ∷ [])) }
    ensures videos { IfSome result (λ sent. (ssrc : ℕ)
        → firsts (record { ssrc = settings.bridge_ssrc; cname = settings.cname }) 3 (blank settings.bridge_ssrc)
        (record { kind = StreamKind.video; ssrc = ssrc }) (Step.item 2 (input_of item.now) ∷ [])
        ≡ map (goes ssrc None) (packets ssrc (visits (ssrc % 3) (blank settings.bridge_ssrc)
        (Step.item 2 (input_of item.now) ∷ [])))) }
    ensures mixes { IfSome result (λ sent. (ssrc : ℕ)
        → map numbered_of (firsts
        (record { ssrc = settings.bridge_ssrc; cname = settings.cname }) 3 (blank settings.bridge_ssrc)
        (record { kind = StreamKind.mix; ssrc = ssrc }) (Step.item 2 (input_of item.now) ∷ []))
        ≡ mixes ssrc (given_of (visits (ssrc % 3) (blank settings.bridge_ssrc)
        (Step.item 2 (input_of item.now) ∷ [])))) }
{
    all_that_is_sent();
    streams_are_routed_lists();
    mixes_are_mix_lists();
    let Ok(mut core) = Core::new(alloc, 3, settings) else {
        return None;
    };
    match core.item(alloc, 2, item) {
        Ok(sent) => Some(sent),
        Err(_) => None,
    }
}

/// A stream is the same on one lane and on two that are both given the item.
pub fn is_the_same_on_two_lanes(
    alloc: Global,
    one: &mut Core,
    two: &mut Core,
    item: &Item,
) -> Option<(Vec<Egress>, Vec<Egress>, Vec<Egress>)>
    requires one { length one.old.lanes ≡ 1 }
    requires two { length two.old.lanes ≡ 2 }
    requires name { two.old.ingress.asker ≡ one.old.ingress.asker }
    requires sized { is_sized (input_of item.now) ≡ true }
    ensures { IfSome result (λ sent. (start : Desk) (ssrc : ℕ) → HasTaken one.old start [] → HasTaken two.old start []
        → sent_on ssrc (map sent_of sent.0.items ∷ [])
        ≡ sent_on ssrc (map sent_of sent.1.items ∷ map sent_of sent.2.items ∷ [])) }
{
    lane_count_does_not_matter();
    let Ok(alone) = one.item(alloc, 0, item) else {
        return None;
    };
    let Ok(first) = two.item(alloc, 0, item) else {
        return None;
    };
    let Ok(second) = two.item(alloc, 1, item) else {
        return None;
    };
    Some((alone, first, second))
}
