//! Laws of what a core answered, call after call.

ghost use Rattle.std.specs.Prelude.{◌≡◌, ℕ, true, List, [], ◌∷◌, filter, fold, nat_eq};
ghost use Rattle.std.specs.List.{AllByRecursion, IsDistinct, list_all};
ghost use Rattle.desk_rows.specs.Desk.{Desk, good};
ghost use Rattle.desk_edit.specs.Asked.CallOf.{Revert};
ghost use Rattle.desk_edit.specs.Calls.{CallHistory, after_call};
ghost use Rattle.desk_edit.specs.InForce.{Entry, in_force, is_other, is_plain};
ghost use Rattle.media_items.specs.Frame.{SourceFrame};
ghost use Rattle.media_items.specs.Inputs.{Input, Request};
ghost use Rattle.sender_feedback.specs.Upstream.{Asker};
ghost use Rattle.bridge_core.specs.Sent.{Sent};
ghost use Rattle.bridge_core.specs.Steps.{Step, CoreOf, HasTaken, Takes, sends, visit_after};
ghost use Rattle.bridge_core.specs.Following.{HasCalled};
ghost use Rattle.bridge_core.specs.Named.{Name, firsts};
ghost use Rattle.bridge_core.specs.Headline.{AreGood, IsChosenOf, numbers};
ghost use Rattle.bridge_core.specs.WholeRuns.{Holds};
ghost use Rattle.plain_laws.specs.CoreRuns.{GoesThrough};
ghost use Rattle.plain_laws.specs.SentLists.{first_sent, HaveNoGaps};
ghost use Rattle.plain_laws.specs.SentAgain.{IsSentAgain};

use bridge_core::{
    all_that_is_sent, packets_are_chosen, resends_lead_back, streams_are_routed_lists,
    streams_have_no_gap,
};
use desk_revert::reverted_calls_were_never_made;
use forward_rewrite::time_goes_on;

/// What was sent on a stream for the first time is the same, said of what the calls answered and of what is sent by
/// definition.
pub fn first_sendings_are_the_same()
    ensures { (who : Asker) (lanes : ℕ) (start : Desk) (steps : List Step) (name : Name)
        → first_sent name steps (sends who lanes start steps) ≡ firsts who lanes start name steps }
{}

/// No outgoing stream has a gap: over any accepted calls and items in any order, what was sent on each stream for the
/// first time is numbered in a row, modulo 65536.
pub fn streams_go_on()
    ensures called { (start : Desk) (steps : List Step) (sent : List (List Sent)) (first last : CoreOf)
        → HasTaken first start [] → good start ≡ true → AreGood steps → GoesThrough first steps sent last
        → HaveNoGaps steps sent }
    ensures held { (who : Asker) (lanes : ℕ) (start : Desk) (steps : List Step) (sent : List (List Sent))
        → Holds who lanes start steps sent → HaveNoGaps steps sent }
{
    all_that_is_sent();
    first_sendings_are_the_same();
    streams_have_no_gap();
}

/// Each packet that is sent for a frame is one that the desk chose: its stream chose the frame's source, which is at
/// the frame's address, and it goes to its slot's member.
pub fn frames_go_by_the_desk()
    ensures { (start : Desk) (before : List Step) (sent : List (List Sent)) (first ready last : CoreOf) (lane : ℕ)
        (f : SourceFrame) (now : List Sent)
        → HasTaken first start [] → good start ≡ true → AreGood before → GoesThrough first before sent ready
        → Takes ready last (Step.item lane (Input.frame f)) (now ∷ [])
        → AllByRecursion (IsChosenOf (visit_after start before lane (Input.frame f)) f) now }
{
    all_that_is_sent();
    packets_are_chosen();
}

/// What is sent for a NACK was sent before, to the member that asks, at the address that asks. No number is sent twice.
pub fn sent_again_was_sent_before()
    ensures each { (start : Desk) (before : List Step) (sent : List (List Sent)) (first ready last : CoreOf) (lane : ℕ)
        (request : Request) (now : List Sent)
        → HasTaken first start [] → good start ≡ true → AreGood before → GoesThrough first before sent ready
        → Takes ready last (Step.item lane (Input.nack request)) (now ∷ [])
        → AllByRecursion (IsSentAgain start before sent request) now }
    ensures once { (start : Desk) (before : List Step) (sent : List (List Sent)) (first ready last : CoreOf) (lane : ℕ)
        (request : Request) (now : List Sent)
        → HasTaken first start [] → good start ≡ true → AreGood before → GoesThrough first before sent ready
        → Takes ready last (Step.item lane (Input.nack request)) (now ∷ [])
        → IsDistinct nat_eq (numbers now) }
{
    all_that_is_sent();
    first_sendings_are_the_same();
    streams_are_routed_lists();
    resends_lead_back();
    time_goes_on();
}

/// A revert of a call that carried commands out leaves the desk of all others. One function makes each desk, entry
/// after entry of those in force. By it the desk after the revert is that of the other entries in force.
pub fn reverts_leave_the_others()
    ensures { (carry : Desk → Entry → Desk)
        × ((core : CoreOf) (h : CallHistory) → HasCalled core h → core.desk ≡ fold carry h.start (in_force h.done))
        × ((core : CoreOf) (h : CallHistory) (number : ℕ) → HasCalled core (after_call h (Revert number))
        → list_all (is_plain number) h.done ≡ true
        → core.desk ≡ fold carry h.start (filter (is_other number) (in_force h.done))) }
{
    reverted_calls_were_never_made();
}
