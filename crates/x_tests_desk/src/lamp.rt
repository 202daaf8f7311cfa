//! Histories of a lamp, which is no desk: a state, edits and an allocator of their own.

ghost use Rattle.std.specs.Prelude.{◌≡◌, true, not, refl, IfOk};
ghost use Rattle.std.proofs.Common.{ap};
ghost use Rattle.std.proofs.Math.Bool.{not-not};

use std::alloc::{AllocError, Allocator};
use std::marker::Model;
use std::test::Fail;
use undo_log::{History, HistoryFault, LIMIT, Reversible};
use x_refusing::Refusing;

/// Who switched a lamp, by a name, so that a copy wants memory.
#[derive(Drop)]
struct Switch<A: Allocator + Copy> {
    name: Vec<u8, A>,
}

impl<A: Allocator + Copy> Model for Switch<A> {
    ghost use Rattle.std.specs.Prelude.{ℕ, List};

    ghost Value = { List ℕ };

    ghost view = { λ switch. switch.name.items };
}

fn switched_by<A: Allocator + Copy>(alloc: A, name: &[u8]) -> Result<Switch<A>, AllocError>
    ensures { IfOk result (λ edit. edit ≡ name.now) }
{
    Ok(Switch {
        name: Vec::from_slice(alloc, name)?,
    })
}

/// A lamp that each edit switches over.
#[derive(Drop)]
struct Lamp<A: Allocator + Copy> {
    is_on: bool,
    last: Option<Switch<A>>,
}

impl<A: Allocator + Copy> Reversible for Lamp<A> {
    type Edit = Switch<A>;

    type Alloc = A;

    ghost can_absorb = { λ lamp edit. true };

    ghost after = { λ lamp edit. record lamp { is_on = not lamp.is_on } };

    ghost inverse = { λ edit. edit };

    fn fits(&mut self, _edit: &Switch<A>) -> bool {
        true
    }

    fn absorb(&mut self, _edit: &Switch<A>) {
        self.is_on = !self.is_on;
    }

    fn absorb_fitting(&mut self, _edit: &Switch<A>) {
        self.is_on = !self.is_on;
    }

    fn absorb_back(&mut self, _edit: &Switch<A>) {
        self.is_on = !self.is_on;
    }

    fn invert(edit: Switch<A>) -> Switch<A> {
        edit
    }

    fn copy(alloc: A, edit: &Switch<A>) -> Result<Switch<A>, AllocError> {
        switched_by(alloc, &edit.name)
    }

    ghost inverse_twice = { λ edit. refl };

    ghost inverse_fits = { λ lamp edit fits. refl };

    ghost undoes = { λ lamp edit fits. ap (λ is_on. record lamp { is_on = is_on }) (not-not lamp.is_on) };

    ghost stays = { λ lamp edit fits. cc };
}

fn dark<A: Allocator + Copy>(log: A) -> History<Lamp<A>> {
    let lamp = Lamp {
        is_on: false,
        last: None,
    };
    History::new(log, lamp)
}

/// As many edits are done as there may be, some are taken back, one is done again, and the last is
/// asked for: with ample memory nothing is refused by out of memory, however long the two lists are.
#[test]
fn a_full_log_is_filled_and_undone(rt: HostRuntime) -> Result<(), Fail> {
    let alloc = rt.alloc();
    let mut history = dark(alloc);
    for _ in 0..LIMIT {
        history.push(switched_by(alloc, b"")?)?;
    }
    assert!(rt; history.push(switched_by(alloc, b"")?) == Err(HistoryFault::LogFull));
    for _ in 0..5001u32 {
        history.undo()?;
    }
    assert!(rt; history.state().is_on && history.undone_len() == 5001);
    assert!(rt; history.undo_edit(alloc).is_ok());
    assert!(rt; history.redo_edit(alloc).is_ok());
    history.redo()?;
    assert!(rt; !history.state().is_on && history.undone_len() == 5000);
    history.push(switched_by(alloc, b"hall")?)?;
    assert!(rt; history.undo_edit(alloc)?.name.as_slice() == b"hall".as_slice());
    history.undo()?;
    assert!(rt; history.redo_edit(alloc)?.name.as_slice() == b"hall".as_slice());
    Ok(())
}

/// The fault of a first push whose request of this number is refused, how many edits are done then, and whether the
/// lamp is on.
fn push_refused<'a>(
    heap: &'a Refusing,
    nth: u64,
) -> Result<(Option<HistoryFault>, usize, bool), Fail> {
    let mut history = dark(heap);
    let edit = switched_by(heap, b"hall")?;
    heap.refuse(nth);
    let fault = history.push(edit).err();
    heap.end(nth);
    Ok((fault, history.done_len(), history.state().is_on))
}

/// A first push makes two requests, one for each list. Whichever is refused, nothing changes.
#[test]
fn a_refused_growth_changes_nothing(rt: HostRuntime) -> Result<(), Fail> {
    let heap = Refusing::new(rt.alloc());
    for nth in 1..3u64 {
        let (fault, done, is_on) = push_refused(&heap, nth)?;
        assert!(rt; fault == Some(HistoryFault::OutOfMemory) && done == 0 && !is_on);
    }
    let (fault, done, is_on) = push_refused(&heap, 3)?;
    assert!(rt; fault == None && done == 1 && is_on);
    Ok(())
}

/// The fault of a copy of the edit that an undo would absorb, whose request of this number is refused.
fn undo_edit_refused<'a>(heap: &'a Refusing, nth: u64) -> Result<Option<HistoryFault>, Fail> {
    let mut history = dark(heap);
    history.push(switched_by(heap, b"hall")?)?;
    heap.refuse(nth);
    let fault = history.undo_edit(heap).err();
    heap.end(nth);
    Ok(fault)
}

/// The fault of a copy of the edit that a redo would absorb, whose request of this number is refused.
fn redo_edit_refused<'a>(heap: &'a Refusing, nth: u64) -> Result<Option<HistoryFault>, Fail> {
    let mut history = dark(heap);
    history.push(switched_by(heap, b"hall")?)?;
    history.undo()?;
    heap.refuse(nth);
    let fault = history.redo_edit(heap).err();
    heap.end(nth);
    Ok(fault)
}

/// A copy of a switch makes one request, for its name.
#[test]
fn a_copy_of_an_edit_can_be_refused(rt: HostRuntime) -> Result<(), Fail> {
    let heap = Refusing::new(rt.alloc());
    let fault = undo_edit_refused(&heap, 1)?;
    assert!(rt; fault == Some(HistoryFault::OutOfMemory) && undo_edit_refused(&heap, 2)? == None);
    let fault = redo_edit_refused(&heap, 1)?;
    assert!(rt; fault == Some(HistoryFault::OutOfMemory) && redo_edit_refused(&heap, 2)? == None);
    Ok(())
}
