//! All ports of a bridge.

ghost use Rattle.std.specs.Prelude.{◌≡◌, ◌⊎◌, ◌<◌, ◌≤◌, [], Some, length, map};
ghost use Rattle.std.specs.Prelude.{slice_get, slice_set, vec_len, vec_capacity};
ghost use Rattle.media_workers.specs.Ports.{PortOf, accept};
ghost use Rattle.media_workers.specs.Bridges.{AllEnded, AllFeed, AllTold};
ghost use Rattle.media_workers.specs.inner.Threads.{lasting};
ghost use Rattle.media_workers.specs.declared.parcel.Parcel.TheVariants.{End};

use crate::lane_end::LaneEnd;
use crate::pace::Pace;
use crate::parcel::Parcel;
use crate::port::Port;
use crate::publisher_name::PublisherName;
use crate::sink::Sink;
use std::sync::Wait;
use std::thread;
use std::thread::Threads;

/// Gives a lane its `End`, unless it has had it or has ended. It waits while the lane's ring is full.
pub fn end_at<N: PublisherName, P: Pace, S: Sink, R: Wait>(
    rt: &R,
    ports: &mut [Port<N, P, S>],
    at: usize,
)
    requires place { at < length ports.old }
    ensures { (port : PortOf _ _) → slice_get ports.old at ≡ Some port →
        (ports.new ≡ ports.old) ⊎ (ports.new ≡ slice_set ports.old at (accept End port)) }
{
    for _ in rt.forever() {
        if ports[at].is_closed() || ports[at].has_ended() || ports[at].push(Parcel::End).is_ok() {
            return;
        }
        thread::yield_now();
    }
    unreachable!()
}

/// Gives every lane its `End`, as `end_at` does.
fn end_each<N: PublisherName, P: Pace, S: Sink, R: Wait>(rt: &R, ports: &mut [Port<N, P, S>])
    ensures { map lasting ports.new ≡ map lasting ports.old }
{
    for at in 0..ports.len() {
        end_at(rt, ports, at);
    }
}

/// Waits for each lane's thread.
fn finish_all<N: PublisherName, P: Pace, S: Sink, R: Threads>(
    rt: &R,
    ports: Vec<Port<N, P, S>>,
    ends: Vec<LaneEnd<N, S>>,
) -> Vec<LaneEnd<N, S>>
    requires none { ends.items ≡ [] }
    requires capacity { vec_len ports ≤ vec_capacity ends }
    ensures ended { AllEnded P.answers S.taken ports.items result.items }
    ensures fed { AllFeed S.feeds ports.items result.items }
    ensures told { AllTold P.answers S.taken S.heard ports.items result.items }
{
    let mut ends = ends;
    for port in ports {
        ends.push_reserved(port.finish(rt));
    }
    ends
}

/// Ends all lanes, and waits for their threads.
pub fn close_all<N: PublisherName, P: Pace, S: Sink, R: Threads + Wait>(
    rt: &R,
    ports: Vec<Port<N, P, S>>,
    ends: Vec<LaneEnd<N, S>>,
) -> Vec<LaneEnd<N, S>>
    requires none { ends.items ≡ [] }
    requires capacity { vec_len ports ≤ vec_capacity ends }
    ensures ended { AllEnded P.answers S.taken ports.items result.items }
    ensures fed { AllFeed S.feeds ports.items result.items }
    ensures told { AllTold P.answers S.taken S.heard ports.items result.items }
{
    let mut ports = ports;
    end_each(rt, &mut ports);
    finish_all(rt, ports, ends)
}
