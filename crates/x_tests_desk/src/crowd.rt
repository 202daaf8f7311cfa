//! Sixteen operators who call at once.

ghost use Rattle.std.specs.Prelude.{◌≡◌};
ghost use Rattle.desk_rows.specs.Desk.{blank as no_rows};

use crate::calls::{Reply, call_of, reply_of, version_of};
use crate::replay::{Operator, is_same, replayed};
use call_history::CallStamp;
use operator_desk::{DeskBrand, DeskNames, Log, Seat, SharedDesk};
use std::alloc::Global;
use std::marker::Brand;
use std::sync::Wait;
use std::test::*;
use std::thread::{Threads, map_vec};

/// How many operators there are.
const OPERATORS: u32 = 16;

/// How many calls each makes.
const CALLS: usize = 10_000;

/// A seat at its desk.
#[derive(Drop)]
struct Post<'d, 'a, H: DeskBrand> {
    desk: &'d SharedDesk<'a, H>,
    seat: Seat<'a, H>,
}

/// A seat whose operator has made its calls, and how they were answered.
#[derive(Drop)]
struct Done<'a, H: DeskBrand> {
    seat: Seat<'a, H>,
    replies: Vec<Reply>,
}

/// Makes all calls of one operator.
fn work<'d, 'a, H: DeskBrand, R: Wait>(
    rt: &R,
    alloc: Global,
    post: Post<'d, 'a, H>,
) -> Option<Done<'a, H>> {
    let Post { desk, mut seat } = post;
    let mut replies = Vec::new(alloc);
    let mut last = 0;
    for made in 0..CALLS {
        let call = call_of(seat.op(), made, last);
        let reply = reply_of(desk.call(rt, alloc, &mut seat, call, CallStamp::unnamed(alloc, 0)))?;
        last = version_of(reply);
        replies.push(reply).ok()?;
    }
    Some(Done { seat, replies })
}

/// What the operators did together: the seats, and the replies to each.
type Worked<'a, H> = (Vec<Seat<'a, H>>, Vec<Operator>);

/// Makes all calls, each operator on a thread of its own.
fn all_work<'a, H: DeskBrand + Send + Sync, R: Threads + Wait + Sync>(
    rt: &R,
    alloc: Global,
    desk: &SharedDesk<'a, H>,
    seats: Vec<Seat<'a, H>>,
) -> Option<Worked<'a, H>> {
    let mut posts = Vec::new(alloc);
    for seat in seats {
        posts.push(Post { desk, seat }).ok()?;
    }
    let done = map_vec(rt, posts, &|post| work(rt, alloc, post)).ok()?;
    let mut seats = Vec::new(alloc);
    let mut operators = Vec::new(alloc);
    for done in done {
        let Done { seat, replies } = done?;
        operators.push(Operator::new(seat.op(), replies)).ok()?;
        seats.push(seat).ok()?;
    }
    Some((seats, operators))
}

/// Whether the log that they made gives the same rows, version and replies at a desk with one operator.
fn agrees<'a, H: DeskBrand, R: Wait>(
    rt: &R,
    alloc: Global,
    desk: SharedDesk<'a, H>,
    worked: Option<Worked<'a, H>>,
) -> bool
    requires parts { H.seats ≡ H.parts }
{
    let rows = desk.rows(rt, alloc);
    let Some((seats, operators)) = worked else {
        desk.end(rt);
        return false;
    };
    match desk.gather(rt, alloc, seats) {
        Ok((log, _)) => match (rows, replayed(alloc, log, operators)) {
            (Ok((version, rows)), Some(one)) => {
                version == one.version() && is_same(&rows, one.rows())
            }
            _ => false,
        },
        Err((desk, _seats, _fault, _behind)) => {
            desk.end(rt);
            false
        }
    }
}

fn crowd<H: DeskBrand + Send + Sync, R: Threads + Wait + Sync>(
    rt: &R,
    alloc: Global,
    log: &Log,
    names: DeskNames,
) -> bool
    requires log { log.now ≡ H.cells }
    requires ledger { (names.ledger.name ≡ H.name) × (names.ledger.parts ≡ H.parts) }
    requires publisher { names.publisher ≡ H.publisher }
    requires start { no_rows 1 ≡ H.start }
    requires seats { (16 ≡ H.seats) × (H.seats ≡ H.parts) }
{
    match SharedDesk::<H>::new(rt, alloc, log, names, 1, OPERATORS, 1) {
        Ok((desk, seats, _readers)) => {
            let worked = all_work(rt, alloc, &desk, seats);
            agrees(rt, alloc, desk, worked)
        }
        Err(_) => false,
    }
}

/// Sixteen operators make 10,000 calls each at the same time. Replayed at a desk with one operator, the log
/// gives the same rows and version, and each operator the same replies.
#[test]
fn sixteen_operators_make_one_legal_log(rt: HostRuntime) -> Result<(), Fail> {
    let alloc = rt.alloc();
    let log = Log::new(alloc)?;
    assert!(rt; crowd::<Brand, _>(&rt, alloc, &log, DeskNames::new(16)));
    Ok(())
}
