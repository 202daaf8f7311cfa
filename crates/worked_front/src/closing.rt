//! A call of which two lanes are told, and their end.

ghost use Rattle.std.specs.Prelude.{◌≡◌, ◌<◌, true, length, IfSome};
ghost use Rattle.desk_rows.specs.Desk.{good};
ghost use Rattle.operator_desk.specs.LegalLogs.{calls_of};
ghost use Rattle.media_workers.specs.Bridges.{AreNew};
ghost use Rattle.lane_laws.specs.Learnt.{AllBegin, AllRead, lanes_of};
ghost use Rattle.lane_laws.specs.OneList.{SendByVersions, sent_by};

use bridge_core::Item;
use call_history::CallStamp;
use desk_edit::Call;
use lane_laws::{lanes_saw_what_they_know, none_knew_more, the_running_headline};
use media_workers::{Bridge, LaneEnd, LaneItem, Pace, Parcel, PublisherName, Sink};
use operator_desk::{Answer, DeskBrand, Seat, SharedDesk};
use published_desk::Notice;
use std::alloc::Global;
use std::sync::Wait;
use std::thread::Threads;

/// Makes an operator's call, tells both lanes of a bridge of it, each with a tick, and ends the bridge. `None` where
/// the call is refused, or where a lane knew of a later call at its end.
///
/// Each packet that a lane sent goes where the desk of the version that it names has it go, by the log that the seat
/// has seen.
pub fn call_and_close<'a, H: DeskBrand, N: PublisherName, P: Pace, S: Sink, R: Threads + Wait>(
    rt: &R,
    alloc: Global,
    desk: &SharedDesk<'a, H>,
    seat: &mut Seat<'a, H>,
    call: Call,
    moment: u64,
    bridge: Bridge<N, P, S>,
) -> Option<Vec<LaneEnd<N, S>>>
    requires publisher { N.publisher ≡ H.publisher }
    requires first { good H.start ≡ true }
    requires two { length bridge ≡ 2 }
    requires new { AreNew (lanes_of bridge) }
    requires begin { AllBegin H.start (lanes_of bridge) }
    requires read { AllRead H.publisher (lanes_of bridge) }
    ensures { IfSome result (λ ends. SendByVersions H.start (calls_of seat.new.seen) (sent_by S.taken ends.items)) }
{
    let mut bridge = bridge;
    let Ok(answer) = desk.call(rt, alloc, seat, call, CallStamp::unnamed(alloc, 0)) else {
        bridge.close(rt);
        return None;
    };
    match answer {
        Answer::Accepted { no: _, notice } => {
            tell(&mut bridge, 0, notice.again(), moment);
            tell(&mut bridge, 1, notice.again(), moment);
            let ends = bridge.close(rt);
            lanes_saw_what_they_know::<N, P, S>();
            the_running_headline::<N, P, S>();
            if none_knew_more::<N, P, S>(&ends, &notice) {
                Some(ends)
            } else {
                None
            }
        }
        Answer::Refused { .. } => {
            bridge.close(rt);
            None
        }
    }
}

/// Gives a lane a tick with the notice, if its ring has a place.
fn tell<N: PublisherName, P: Pace, S: Sink>(
    bridge: &mut Bridge<N, P, S>,
    lane: u32,
    notice: Notice,
    moment: u64,
)
    requires lane { lane < length bridge.old }
    requires publisher { notice.publisher ≡ N.publisher }
    ensures lanes { lanes_of bridge.new ≡ lanes_of bridge.old }
    ensures count { length bridge.new ≡ length bridge.old }
{
    let parcel = Parcel::Work {
        item: LaneItem::Own(Item::Tick { moment }),
        notice: Some(notice),
    };
    let _ = bridge.push(lane, parcel);
}
