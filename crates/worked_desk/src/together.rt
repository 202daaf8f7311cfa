//! Two operators at once, each on a thread of its own.

ghost use Rattle.std.specs.Prelude.{◌≡◌, ◌+◌, length, [], IfSome};
ghost use mathlib.Core.List.{IsPrefix};
ghost use Rattle.desk_edit.specs.Asked.{asked_by};
ghost use Rattle.operator_desk.specs.LegalLogs.{IsLegal};
ghost use Rattle.operator_desk.specs.Seats.{new_seat};
ghost use Rattle.worked_desk.specs.Has.{Has, unnamed};

use call_history::CallStamp;
use desk_edit::Call;
use operator_desk::{Answer, DeskBrand, LogEntry, Seat, SharedDesk};
use std::alloc::Global;
use std::sync::Wait;
use std::thread::{Threads, join};

/// A seat at its desk.
#[derive(Drop)]
struct Post<'d, 'a, H: DeskBrand> {
    desk: &'d SharedDesk<'a, H>,
    seat: Seat<'a, H>,
}

/// Two operators make a call each. Where both are accepted, the log is legal and has just these two, each by its
/// operator.
pub fn by_two<'a, H: DeskBrand + Send + Sync, R: Threads + Wait + Sync>(
    rt: &R,
    alloc: Global,
    desk: SharedDesk<'a, H>,
    one: Seat<'a, H>,
    two: Seat<'a, H>,
    first: Call,
    second: Call,
) -> Option<Vec<LogEntry>>
    requires parts { H.seats ≡ H.parts }
    requires seats { (one ≡ new_seat 0) × (two ≡ new_seat 1) }
    ensures legal { IfSome result (λ log. IsLegal H.start log.items) }
    ensures two { IfSome result (λ log. length log.items ≡ 2) }
    ensures first { IfSome result (λ log. Has log.items (record { op = 0; call = asked_by first; stamp = unnamed })) }
    ensures second { IfSome result (λ log. Has log.items (record { op = 1; call = asked_by second; stamp = unnamed })) }
{
    let one = Post {
        desk: &desk,
        seat: one,
    };
    let two = Post {
        desk: &desk,
        seat: two,
    };
    let (one, two) = join(
        rt,
        move || -> Option<Seat<H>>
            requires { one.seat.seen ≡ [] }
            ensures { IfSome result (λ s.
                Has s.seen (record { op = one.entry.seat.op; call = asked_by first; stamp = unnamed })
                × (s.count ≡ 1)) }
        { made(rt, alloc, one, first) },
        move || -> Option<Seat<H>>
            requires { two.seat.seen ≡ [] }
            ensures { IfSome result (λ s.
                Has s.seen (record { op = two.entry.seat.op; call = asked_by second; stamp = unnamed })
                × (s.count ≡ 1)) }
        { made(rt, alloc, two, second) },
    );
    match (one, two) {
        (Some(one), Some(two)) => gathered(rt, alloc, desk, one, two),
        _ => {
            desk.end(rt);
            None
        }
    }
}

/// Makes a call with a new seat.
fn made<'d, 'a, H: DeskBrand, R: Wait>(
    rt: &R,
    alloc: Global,
    post: Post<'d, 'a, H>,
    call: Call,
) -> Option<Seat<'a, H>>
    requires { post.seat.seen ≡ [] }
    ensures { IfSome result (λ s.
        Has s.seen (record { op = post.entry.seat.op; call = asked_by call; stamp = unnamed }) × (s.count ≡ 1)) }
{
    let Post { desk, mut seat } = post;
    match desk.call(rt, alloc, &mut seat, call, CallStamp::unnamed(alloc, 0)) {
        Ok(Answer::Accepted { .. }) => Some(seat),
        Ok(Answer::Refused { .. }) | Err(_) => None,
    }
}

/// The log that two seats made.
fn gathered<'a, H: DeskBrand, R: Wait>(
    rt: &R,
    alloc: Global,
    desk: SharedDesk<'a, H>,
    one: Seat<'a, H>,
    two: Seat<'a, H>,
) -> Option<Vec<LogEntry>>
    requires { H.seats ≡ H.parts }
    ensures legal { IfSome result (λ log. IsLegal H.start log.items) }
    ensures sum { IfSome result (λ log. length log.items ≡ one.entry.count + two.entry.count) }
    ensures one { IfSome result (λ log. IsPrefix one.entry.seen log.items) }
    ensures two { IfSome result (λ log. IsPrefix two.entry.seen log.items) }
{
    let mut seats = match Vec::with_capacity(alloc, 2) {
        Ok(seats) => seats,
        Err(_) => {
            desk.end(rt);
            return None;
        }
    };
    seats.push_reserved(one);
    seats.push_reserved(two);
    match desk.gather(rt, alloc, seats) {
        Ok((log, _)) => Some(log),
        Err((desk, _seats, _fault, _behind)) => {
            desk.end(rt);
            None
        }
    }
}
