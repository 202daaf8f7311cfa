//! Whether a log can be handed out.

ghost use Rattle.std.specs.Prelude.{◌≡◌, ◌<◌, ◌≤◌, length, option_copied, None, IfSome, IfNone, IfOk, IfErr, OnOk};
ghost use Rattle.std.specs.List.{All, Contains};
ghost use Rattle.operator_desk.specs.Answers.{Tells};
ghost use Rattle.operator_desk.specs.LegalLogs.{IsLegal};
ghost use Rattle.operator_desk.specs.Seats.{SeatOf};
ghost use Rattle.operator_desk.specs.Gathering.{IsFault, AreAllIn, is_handed_in};

use crate::desk_brand::DeskBrand;
use crate::desk_inner::DeskInner;
use crate::entry::LogEntry;
use crate::fault::{Behind, GatherFault};
use crate::seat::Seat;
use published_desk::Notice;
use std::alloc::Global;

/// A copy of the log and the notice that it led to, if all seats are among these, none of them has seen more, and
/// nothing else was written.
// `LogTaken` comes with a token of a cell that no seat has seen. Without it, a body that answers `LogTaken` whenever
// all seats are back would be proved.
pub fn judged<'a, H: DeskBrand>(
    held: &DeskInner<'a, H>,
    alloc: Global,
    seats: &Vec<Seat<'a, H>>,
    count: u32,
) -> Result<(Vec<LogEntry>, Notice), (GatherFault, Option<Behind<'a>>)>
    ensures all { OnOk result (AreAllIn count seats.now.items) }
    ensures few { OnOk result (All (λ (s : SeatOf). length s.seen ≤ length held.now.log) seats.now.items) }
    ensures beyond { OnOk result (held.now.beyond ≡ None) }
    ensures copy { IfOk result (λ r. r.0.items ≡ held.now.log) }
    ensures legal { IfOk result (λ r. IsLegal H.start r.0.items) }
    ensures tells { IfOk result (λ r. Tells H.start H.publisher r.0.items r.1) }
    ensures fault { IfErr result (λ e. IsFault H.cells count seats.now.items e.0 e.1) }
{
    if let Some(op) = missing(seats, count) {
        return Err((GatherFault::SeatMissing { op }, None));
    }
    if let Some(seat) = foreign(seats, held.len()) {
        return Err((GatherFault::SeatForeign { op: seat.op() }, None));
    }
    if let Some(token) = held.taken() {
        if held.ended {
            return Err((GatherFault::Ended, Some(token)));
        }
        return Err((GatherFault::LogTaken, Some(token)));
    }
    match held.copied(alloc) {
        Ok(log) => Ok((log, held.told())),
        Err(_) => Err((GatherFault::OutOfMemory, None)),
    }
}

/// A seat that has seen more entries than these, if one has.
fn foreign<'s, 'a, H: DeskBrand>(
    seats: &'s Vec<Seat<'a, H>>,
    entries: usize,
) -> Option<&'s Seat<'a, H>>
    ensures one { IfSome (option_copied result) (Contains seats.now.items) }
    ensures more { IfSome (option_copied result) (λ (s : SeatOf). entries < length s.seen) }
    ensures none { IfNone result (All (λ (s : SeatOf). length s.seen ≤ entries) seats.now.items) }
{
    seats.iter().find(|seat| seat.has_seen() > entries)
}

/// The least operator whose seat is missing.
// Seats aren't counted. With one of each operator there are at least as many as operators, and shares never have more
// parts than the ledger.
fn missing<'a, H: DeskBrand>(seats: &Vec<Seat<'a, H>>, count: u32) -> Option<u32>
    ensures some { IfSome result (λ op. IsFault H.cells count seats.now.items (GatherFault.SeatMissing op) None) }
    ensures none { IfNone result (AreAllIn count seats.now.items) }
{
    for op in 0..count {
        if !has_seat(seats, op) {
            return Some(op);
        }
    }
    None
}

fn has_seat<'a, H: DeskBrand>(seats: &Vec<Seat<'a, H>>, op: u32) -> bool
    ensures { result ≡ is_handed_in op seats.now.items }
{
    seats.iter().any(|seat| seat.op == op)
}
