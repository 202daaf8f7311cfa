//! Laws on what lanes were given and handled, and on a bridge from its beginning to its end.

ghost use Rattle.std.specs.Prelude.{◌≡◌, ◌∷◌, List, Some, map};
ghost use Rattle.std.specs.List.{AllByRecursion, AllZip};
ghost use mathlib.Core.List.{IsPrefix};
ghost use Rattle.media_workers.specs.LaneRuns.{Versioned, versioned};
ghost use Rattle.media_workers.specs.Ports.{PortOf};
ghost use Rattle.media_workers.specs.Bridges.{EndsAs, AllEnded};
ghost use Rattle.lane_laws.specs.Learnt.{EndedAfter, handled};
ghost use Rattle.lane_laws.specs.OneList.{sent_by};
ghost use Rattle.desk_rows.specs.Desk.{Desk};
ghost use Rattle.operator_desk.specs.Entry.{EntryOf};
ghost use Rattle.operator_desk.specs.LegalLogs.{calls_of};
ghost use Rattle.event_loop.specs.Shapes.{AreRounds};
ghost use Rattle.event_loop.specs.Runs.{FrontAt};
ghost use Rattle.media_items.specs.Inputs.{Input};
ghost use Rattle.media_front.specs.FedLanes.{FedLane, ports_in};
ghost use Rattle.media_workers.specs.declared.lane_end.LaneEnd.{LaneEnd as End};
ghost use Rattle.event_loop.specs.Turns.{Turn, History, HaveDone};
ghost use Rattle.whole_laws.specs.Given.{given_by_turns, HasKept, inputs_of};
ghost use Rattle.whole_laws.specs.Whole.{HandledBeginning, AreRenewed, HasDoneNothing, Left, LaneLeft, sent_in};
ghost use Rattle.whole_laws.specs.Whole.{IsAsked, IsFrontRun, AreLanesRun};

use event_loop::{all_that_came_is_in_turns, all_that_is_tried_is_meant};
use lane_laws::the_running_headline;
use media_workers::{Pace, PublisherName, Sink};

/// Each lane was given just what the turns gave, in order: it accepted each item once, or the item was dropped and
/// counted.
pub fn lanes_keep_what_turns_gave<P: Pace, S: Sink>()
    ensures { (turns : List Turn) (old new : History P S) (done : HaveDone turns old new) →
        AllZip (HasKept (given_by_turns turns old new done)) old.front.feed new.front.feed }
{}

/// What a lane handled is a beginning of what it accepted.
pub fn lanes_handle_a_beginning<N: PublisherName, P: Pace, S: Sink>()
    ensures { (port : PortOf P S) (end : End N S) (ended : EndsAs P.answers S.taken port end) →
        IsPrefix (map (λ (v : Versioned). v.input) (map versioned ended.ran.served)) (inputs_of port.accepted) }
{}

/// What each lane handled is a beginning of what the turns gave it, less what was dropped for it and counted, in order.
pub fn lanes_handle_what_turns_gave<N: PublisherName, P: Pace, S: Sink>()
    ensures { (turns : List Turn) (first last : History P S) (done : HaveDone turns first last) (ends : List (End N S))
        (ended : AllEnded P.answers S.taken (ports_in last.front.feed) ends) → AreRenewed first.front.feed →
        AllZip (λ (x : FedLane P S) (items : List Versioned).
        HandledBeginning (Input.renew ∷ given_by_turns turns first last done) x.dropped items) last.front.feed
        (handled P.answers S.taken (ports_in last.front.feed) ends ended) }
{}

/// A front that did whole rounds from its fresh state on: what its inlet read, what its watch told and what its wire
/// tried is what these turns read, were told and tried.
pub fn fronts_that_ran<P: Pace, S: Sink>()
    ensures { (first last : FrontAt P S) (turns : List Turn) (left : Left) →
        AreRounds first.reader last.reader turns → HaveDone turns first.history last.history →
        HasDoneNothing first.history → last.history.came ≡ left.read → last.history.told ≡ left.told →
        last.history.tried ≡ Some left.tried → IsFrontRun first last turns left }
{
    all_that_came_is_in_turns::<P, S>();
    all_that_is_tried_is_meant::<P, S>();
}

/// The lanes of a bridge that ended beside a log: each handled a beginning of what the turns gave it, and one list of
/// the log's calls and of just these items gives all that they sent. So it is what their wires were asked to send.
pub fn lanes_that_ran<N: PublisherName, P: Pace, S: Sink>()
    ensures { (turns : List Turn) (first last : History P S) (done : HaveDone turns first last) (start : Desk)
        (log : List EntryOf) (ends : List (End N S))
        (h : EndedAfter P.answers S.taken start log (ports_in last.front.feed) ends) (lanes : List LaneLeft) →
        AreRenewed first.front.feed →
        map (λ (l : LaneLeft). l.dropped) lanes ≡ map (λ (x : FedLane P S). x.dropped) last.front.feed →
        sent_in lanes ≡ sent_by S.taken ends → AllByRecursion IsAsked lanes →
        AreLanesRun (h.new).0 start (calls_of log) (Input.renew ∷ given_by_turns turns first last done) lanes }
{
    the_running_headline::<N, P, S>();
}
