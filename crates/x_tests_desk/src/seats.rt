//! How many operators a desk has.

ghost use Rattle.std.specs.Prelude.{◌≡◌};
ghost use Rattle.desk_rows.specs.Desk.{blank as no_rows};

use operator_desk::{DeskBrand, DeskFault, DeskNames, Log, SharedDesk};
use std::alloc::Global;
use std::marker::Brand;
use std::sync::Wait;
use std::test::*;

/// How many seats and readers such a desk has, or why there is none.
fn opened<H: DeskBrand, R: Wait>(
    rt: &R,
    alloc: Global,
    log: &Log,
    names: DeskNames,
    operators: u32,
    readers: usize,
) -> Result<(usize, usize), DeskFault>
    requires log { log.now ≡ H.cells }
    requires ledger { (names.ledger.name ≡ H.name) × (names.ledger.parts ≡ H.parts) }
    requires publisher { names.publisher ≡ H.publisher }
    requires start { no_rows 1 ≡ H.start }
    requires seats { (operators ≡ H.seats) × (H.seats ≡ H.parts) }
{
    let (desk, seats, readers) = SharedDesk::<H>::new(
        rt, alloc, log, names, 1, operators, readers,
    )?;
    desk.end(rt);
    Ok((seats.len(), readers.len()))
}

/// The same, over a log of its own.
fn places<R: Wait>(
    rt: &R,
    alloc: Global,
    operators: u32,
    readers: usize,
) -> Option<Result<(usize, usize), DeskFault>> {
    let log = Log::new(alloc).ok()?;
    let names = DeskNames::new(operators);
    Some(opened::<Brand, _>(rt, alloc, &log, names, operators, readers))
}

#[test]
fn operators_are_one_to_sixteen(rt: HostRuntime) -> Result<(), Fail> {
    let alloc = rt.alloc();
    assert!(rt; places(&rt, alloc, 0, 18) == Some(Err(DeskFault::Count)));
    assert!(rt; places(&rt, alloc, 17, 1) == Some(Err(DeskFault::Count)));
    assert!(rt; places(&rt, alloc, 16, 18) == Some(Err(DeskFault::Places)));
    assert!(rt; places(&rt, alloc, 1, 0) == Some(Err(DeskFault::Places)));
    assert!(rt; places(&rt, alloc, 16, 17) == Some(Ok((16, 17))));
    Ok(())
}
