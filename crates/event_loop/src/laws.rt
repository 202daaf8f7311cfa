//! Laws of any number of rounds. The functions do nothing when they run.

ghost use Rattle.std.specs.Prelude.{◌≡◌, ◌++◌, List, map, None};
ghost use Rattle.std.specs.List.{flat_map};
ghost use Rattle.media_front.specs.FedLanes.{lanes_in};
ghost use Rattle.event_loop.specs.Moments.{RiseFrom};
ghost use Rattle.event_loop.specs.Turns.{Turn, History, HaveDone};
ghost use Rattle.event_loop.specs.Tries.{Try, AreMeant, came_in, moments_in};
ghost use Rattle.event_loop.specs.Totals.{AreCounted, taken_in};
ghost use Rattle.event_loop.specs.Asking.{steps_in};
ghost use Rattle.event_loop.specs.Runs.{FrontAt};
ghost use Rattle.event_loop.specs.Shapes.{AreRounds};
ghost use Rattle.picture_requests.specs.declared.source.VideoSource.{VideoSource};
ghost use Rattle.picture_requests.specs.Requests.{no_requests};
ghost use Rattle.picture_requests.specs.Steps.{after_steps, AreApart};

use media_workers::{Pace, Sink};

/// All that was read was read by a turn, and all that the watch told was told to one, in order. So no datagram is taken
/// in twice or out of order, and none without its moment.
pub fn all_that_came_is_in_turns<P: Pace, S: Sink>()
    ensures came { (turns : List Turn) (old new : History P S) → HaveDone turns old new
        → new.came ≡ old.came ++ flat_map came_in turns }
    ensures told { (turns : List Turn) (old new : History P S) → HaveDone turns old new
        → new.told ≡ old.told ++ flat_map moments_in turns }
{}

/// Whatever a front does, time never goes back: the moments that turns were told rise, and so do those at which
/// datagrams were taken in. So do all that the watch told, if those before the turns did.
pub fn moments_never_go_back<P: Pace, S: Sink>()
    ensures turns { (turns : List Turn) (old new : History P S) → HaveDone turns old new
        → RiseFrom 0 (flat_map moments_in turns) }
    ensures arrivals { (turns : List Turn) (old new : History P S) → HaveDone turns old new
        → RiseFrom 0 (map (λ t. t.0.moment) (flat_map taken_in turns)) }
    ensures told { (turns : List Turn) (old new : History P S) → HaveDone turns old new
        → RiseFrom 0 old.told → RiseFrom 0 new.told }
{}

/// Whatever a front does, each datagram that it tries to send is a compound of the receive side to the sender of a
/// datagram that it took in, one that asks a sender again as time passes, a receiver report of a report that was due,
/// or the PLI that asks a source for a picture. Each turn tries what is listed of it once, in order.
pub fn all_that_is_tried_is_meant<P: Pace, S: Sink>()
    ensures { (turns : List Turn) (old new : History P S) (done : HaveDone turns old new)
        → (tries : List Try) × AreMeant turns old new done tries }
{}

/// Whatever a front does, it counts each datagram that it took in once, in order, with the outcome that its ingress
/// gave, and nothing else. A datagram for which memory ran out isn't counted, nor one that was dropped since the desk
/// had ended.
pub fn all_that_is_taken_in_is_counted<P: Pace, S: Sink>()
    ensures { (turns : List Turn) (old new : History P S) → HaveDone turns old new
        → AreCounted turns old.stats new.stats }
{}

/// Whatever a front does, its lanes stay those that it was handed, and its ingress signs with the same SSRC and CNAME.
pub fn lanes_stay_the_same<P: Pace, S: Sink>()
    ensures lanes { (turns : List Turn) (old new : History P S) → HaveDone turns old new
        → lanes_in new.front.feed ≡ lanes_in old.front.feed }
    ensures asker { (turns : List Turn) (old new : History P S) → HaveDone turns old new
        → new.front.ingress.asker ≡ old.front.ingress.asker }
{}

/// Whatever a front does, whom it is to ask for pictures is what its turns say: the desks that it saw, the sources
/// whose probation ended, and the requests that were sent, in order. So the laws of picture_requests hold of a front.
pub fn requests_are_those_of_turns<P: Pace, S: Sink>()
    ensures { (turns : List Turn) (old new : History P S) → HaveDone turns old new
        → new.kept.pictures ≡ after_steps (flat_map steps_in turns) old.kept.pictures }
{}

/// Over whole rounds of a front that had none before, two requests for a picture of a source are at least half a second
/// apart, unless the source's probation ended between them.
pub fn pictures_are_half_a_second_apart<P: Pace, S: Sink>()
    ensures { (source : VideoSource) (turns : List Turn) (old new : FrontAt P S)
        → AreRounds old.reader new.reader turns → HaveDone turns old.history new.history
        → old.history.kept.pictures ≡ no_requests → AreApart source None (flat_map steps_in turns) }
{}
