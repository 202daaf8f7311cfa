//! Why a bridge does not start, or ends without `stop`.

ghost use Rattle.std.specs.Prelude.{◌≡◌, Ok, Err};
ghost use Rattle.std.specs.IoError.{error_kind, raw_os_error};
ghost use Rattle.std.specs.Result.{MatchResult};
ghost use Rattle.event_lines.specs.Words.{why_of};
ghost use Rattle.event_lines.specs.declared.cause.Cause.TheVariants.{Failed};
ghost use Rattle.bridge_server.specs.Ends.{ended_at, ended_by_desk, ended_by_lanes};

use crate::rounds::Running;
use crate::setup::Setup;
use bridge_monitor::Teller;
use event_lines::{Cause, ServerPart, WhyFailed};
use media_workers::{HandleFault, LaneEnd, PublisherName, StartFault};
use operator_desk::{DeskBrand, DeskFault};
use std::io;
use std::sync::Wait;
use std::time::Clock;
use udp_wire::FrontFault;

/// Why a bridge could not open its sockets.
#[derive(Clone, Copy)]
pub struct BindFault {
    /// What failed, and why.
    pub cause: Cause,
    /// How the bridge ends.
    pub ends: FrontFault,
}

/// How a bridge ends of which a part fails.
fn fault_at(part: ServerPart, error: &io::Error) -> FrontFault
    ensures { result ≡ ended_at part (error_kind error.now) }
{
    match part {
        ServerPart::Clock => FrontFault::of_clock(error),
        ServerPart::Udp(_)
        | ServerPart::Tcp(_)
        | ServerPart::Trace(_)
        | ServerPart::Poll
        | ServerPart::Start
        | ServerPart::Front
        | ServerPart::Desk
        | ServerPart::End => FrontFault::of_io(error),
    }
}

/// What the system answered for a part of a bridge that opens its sockets.
pub(crate) fn opened<T>(part: ServerPart, answer: io::Result<T>) -> Result<T, BindFault>
    ensures { MatchResult answer (λ value. result ≡ Ok value) (λ error.
        result ≡ Err (record {
          cause = Failed part (why_of (raw_os_error error) (error_kind error));
          ends = ended_at part (error_kind error);
        })) }
{
    match answer {
        Ok(value) => Ok(value),
        Err(error) => Err(BindFault {
            cause: Cause::Failed {
                part,
                why: WhyFailed::of(&error),
            },
            ends: fault_at(part, &error),
        }),
    }
}

/// What the system answered for a part of a bridge that starts. A failure's cause is told.
pub(crate) fn started<T, R: Wait>(
    rt: &R,
    teller: &Teller,
    part: ServerPart,
    answer: io::Result<T>,
) -> Result<T, FrontFault>
    ensures { MatchResult answer (λ value. result ≡ Ok value)
        (λ error. result ≡ Err (ended_at part (error_kind error))) }
{
    match answer {
        Ok(value) => Ok(value),
        Err(error) => {
            let why = WhyFailed::of(&error);
            teller.note(rt, Cause::Failed { part, why });
            Err(fault_at(part, &error))
        }
    }
}

/// The bridge's fault, if its desk doesn't start.
pub(crate) fn desk_fault(fault: DeskFault) -> FrontFault
    ensures { result ≡ ended_by_desk fault }
{
    match fault {
        DeskFault::OutOfMemory => FrontFault::OutOfMemory,
        // Settings that were read never have these faults.
        DeskFault::Count | DeskFault::Places => FrontFault::Internal,
    }
}

/// The bridge's fault, if its lanes don't start.
pub(crate) fn start_fault(fault: StartFault) -> FrontFault
    ensures { result ≡ ended_by_lanes fault }
{
    match fault {
        StartFault::OutOfMemory => FrontFault::OutOfMemory,
        // A bridge has a lane at least, and a sink for each.
        StartFault::Count => FrontFault::Internal,
        StartFault::Spawn => FrontFault::NoThread,
    }
}

/// Tells that a part of the bridge ran out of memory, if that is its fault.
pub(crate) fn note_memory<R: Wait>(rt: &R, teller: &Teller, part: ServerPart, fault: FrontFault) {
    if matches!(fault, FrontFault::OutOfMemory) {
        let why = WhyFailed::OutOfMemory;
        teller.note(rt, Cause::Failed { part, why });
    }
}

/// Tells that the desk failed, by its fault.
pub(crate) fn note_desk<R: Wait>(rt: &R, teller: &Teller, fault: FrontFault) {
    let part = ServerPart::Desk;
    let why = match fault {
        FrontFault::OutOfMemory => WhyFailed::OutOfMemory,
        _ => WhyFailed::Unnumbered,
    };
    teller.note(rt, Cause::Failed { part, why });
}

/// Tells why the last round failed, if it did and the reason isn't that of the desk or a lane.
pub(crate) fn note_round<H, R>(
    rt: &R,
    teller: &Teller,
    running: &Running<H, R>,
    round: &Result<(), FrontFault>,
)
where
    H: DeskBrand + Setup + Send + Sync + 'static,
    R: Wait + Clock + Copy + Send + Drop + 'static,
{
    let Err(fault) = round else {
        return;
    };
    match running.trouble() {
        Some(cause) => teller.note(rt, cause),
        None => note_memory(rt, teller, ServerPart::Front, *fault),
    }
}

/// Tells that the system started no thread for a lane, if that is the fault.
pub(crate) fn note_start<R: Wait>(rt: &R, teller: &Teller, fault: StartFault) {
    if fault == StartFault::Spawn {
        let part = ServerPart::Start;
        let why = WhyFailed::NoThread;
        teller.note(rt, Cause::Failed { part, why });
    }
}

/// Tells that memory ran out at the end, if it did, and no other cause was told.
pub(crate) fn note_end<R: Wait>(rt: &R, teller: &Teller, fault: Option<FrontFault>) {
    note_last(rt, teller, ServerPart::End, fault);
}

/// Tells that a part ran out of memory, if it did, and no other cause was told.
pub(crate) fn note_last<R: Wait>(
    rt: &R,
    teller: &Teller,
    part: ServerPart,
    fault: Option<FrontFault>,
) {
    if let (Some(fault), None) = (fault, teller.cause(rt, 0)) {
        note_memory(rt, teller, part, fault);
    }
}

/// Tells of each lane that refused an item since memory ran out, or since it had handled all that it can number.
pub(crate) fn note_lanes<N: PublisherName, S, R: Wait>(
    rt: &R,
    teller: &Teller,
    ends: &[LaneEnd<N, S>],
) {
    for end in ends {
        let lane = end.lane;
        let item = end.handled.saturating_add(1);
        match &end.refused {
            Some((_, HandleFault::OutOfMemory)) => {
                teller.note(rt, Cause::LaneMemory { lane, item });
            }
            Some((_, HandleFault::Spent)) => teller.note(rt, Cause::LaneSpent { lane }),
            Some((_, HandleFault::NoEntry)) | None => {}
        }
    }
}
