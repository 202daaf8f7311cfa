//! What a gate still waits for, and how it gives a number up.

ghost use Rattle.std.specs.Prelude.{◌≡◌, ◌∷◌, ◌++◌, [], ◌-◌, ◌<◌, ◌≤◌, ◌^◌, IfOk, OnOk, length, None, map, filter};
ghost use Rattle.std.specs.Prelude.{not, is_some, nat_le, nat_lt, ◌&&◌, if◌then◌else◌, unwrap_or, min, ◌+◌, false};
ghost use Rattle.std.specs.Prelude.{IfSome};
ghost use Rattle.std.specs.List.{range_with_len};
ghost use Rattle.frame_gate.specs.inner.Cells.{held};
ghost use Rattle.frame_gate.specs.Epochs.{most_missing};
ghost use Rattle.frame_gate.specs.Admits.{Misses, CommitsCuts, PreparesCuts, PreparesMaybe};
ghost use Rattle.frame_gate.specs.Packets.{number_of, ext_of, IsExt};
ghost use Rattle.frame_gate.specs.Watched.{first_among};

use crate::cells::{CELLS, find_held, forget_between};
use crate::gate::Gate;
use crate::held::{HeldPacket, number_of};
use crate::missing::ask;
use crate::prepared::{GaveUp, PreparedCuts};
use crate::resync::resync;
use std::alloc::{AllocError, Allocator};

/// Whether a packet of this number is held.
#[tactic(auto, using(crate::proofs::Answered::some_copied))]
pub fn is_held<A: Allocator + Copy>(cells: &[Option<HeldPacket<A>>], number: u64) -> bool
    requires { length cells.now ≡ 256 }
    ensures { result ≡ is_some (held cells.now None number) }
{
    find_held(cells, None, number).is_some()
}

/// Asks for a number, unless it is held.
fn ask_unheld<A: Allocator + Copy>(
    out: &mut Vec<i64, A>,
    cells: &[Option<HeldPacket<A>>],
    number: u64,
) -> Result<(), AllocError>
    requires cells { length cells.now ≡ 256 }
    requires number { number < 2 ^ 63 }
    ensures { OnOk result (out.new.items
        ≡ (if not (is_some (held cells.now None number)) then out.old.items ++ ext_of number ∷ [] else out.old.items)) }
{
    if !is_held(cells, number) {
        ask(out, number)?;
    }
    Ok(())
}

/// The extended numbers of those from `from` up to `to`, which is left out, that are not held.
fn unheld<A: Allocator + Copy>(
    alloc: A,
    cells: &[Option<HeldPacket<A>>],
    from: u64,
    to: u64,
) -> Result<Vec<i64, A>, AllocError>
    requires cells { length cells.now ≡ 256 }
    requires to { to ≤ 2 ^ 63 }
    ensures items { IfOk result (λ out. out.items
        ≡ map ext_of (filter (λ n. not (is_some (held cells.now None n))) (range_with_len from (to - from)))) }
    ensures few { IfOk result (λ out. length out.items ≤ to - from) }
{
    let mut out = Vec::new(alloc);
    for number in from..to {
        ask_unheld(&mut out, cells, number)?;
    }
    Ok(out)
}

/// The first of those from `from` up to `to`, which is left out, that is not held.
pub(crate) fn first_unheld<A: Allocator + Copy>(
    cells: &[Option<HeldPacket<A>>],
    from: u64,
    to: u64,
) -> Option<u64>
    requires { length cells.now ≡ 256 }
    ensures { result
        ≡ first_among (filter (λ n. not (is_some (held cells.now None n))) (range_with_len from (to - from))) }
{
    for number in from..to {
        if !is_held(cells, number) {
            return Some(number);
        }
    }
    None
}

impl<A: Allocator + Copy> Gate<A> {
    /// The number behind the last that can be missing.
    pub(crate) fn missing_end(&self) -> u64
        ensures end { result ≡ min (unwrap_or self.now.greatest 0) (self.now.walk.next + 255) }
        ensures few { result - self.now.walk.next ≤ most_missing }
        ensures range { result ≤ 2 ^ 63 }
    {
        let most = self.walk.next.saturating_add(CELLS - 1);
        self.greatest.unwrap_or(0).min(most)
    }

    /// The extended numbers that are missing, rising: at most 255. The only error is out of memory.
    pub fn missing(&self, alloc: A) -> Result<Vec<i64, A>, AllocError>
        ensures missing { IfOk result (λ v. Misses self.now v.items) }
        ensures few { IfOk result (λ v. length v.items ≤ most_missing) }
    {
        let to = self.missing_end();
        unheld(alloc, &self.cells, self.walk.next, to)
    }

    /// Whether a number is missing.
    fn is_missing(&self, number: u64) -> bool
        ensures { result ≡ (nat_le self.now.walk.next number && (nat_lt number (unwrap_or self.now.greatest 0)
            && not (is_some (held self.now.cells None number)))) }
    {
        self.walk.next <= number
            && number < self.greatest.unwrap_or(0)
            && !is_held(&self.cells, number)
    }

    /// The cuts where nothing is given up: none.
    fn no_cuts(&self, alloc: A) -> PreparedCuts<A>
        ensures walk { result.walk ≡ self.now.walk }
        ensures frames { result.answer.frames ≡ [] }
        ensures pli { result.answer.pli ≡ false }
    {
        PreparedCuts {
            walk: self.walk,
            answer: GaveUp {
                frames: Vec::new(alloc),
                pli: false,
            },
        }
    }

    /// The cuts that give a number up. There are none where it is not missing.
    fn cuts_at(&self, alloc: A, number: u64) -> Result<PreparedCuts<A>, AllocError>
        requires { number < 2 ^ 63 }
        ensures { IfOk result (λ r. PreparesCuts self.now number r) }
    {
        if !self.is_missing(number) {
            return Ok(self.no_cuts(alloc));
        }
        let mut frames = Vec::new(alloc);
        let walk = resync(alloc, &self.cells, self.walk, number + CELLS, &mut frames)?;
        Ok(PreparedCuts {
            walk,
            answer: GaveUp { frames, pli: true },
        })
    }

    /// The cuts that give a number up, if there is one.
    pub(crate) fn cuts_for(
        &self,
        alloc: A,
        lost: Option<u64>,
    ) -> Result<PreparedCuts<A>, AllocError>
        requires { IfSome lost (λ n. n < 2 ^ 63) }
        ensures { IfOk result (λ r. PreparesMaybe self.now lost r) }
    {
        match lost {
            Some(number) => self.cuts_at(alloc, number),
            None => Ok(self.no_cuts(alloc)),
        }
    }

    /// Prepares to give a missing number up, by cuts as a packet numbered 256 further on would place them. Nothing
    /// changes until [`give_up`](Self::give_up). A number that is not missing changes nothing then.
    ///
    /// `ext` is an extended number, at least -65536. The only error is out of memory.
    pub fn prepare_give_up(&self, alloc: A, ext: i64) -> Result<PreparedCuts<A>, AllocError>
        requires ext { IsExt ext }
        ensures { IfOk result (λ r. PreparesCuts self.now (number_of ext) r) }
    {
        self.cuts_at(alloc, number_of(ext))
    }

    /// Places the prepared cuts, and gives their answer. The gate must be as it was when they were prepared. It takes
    /// no memory.
    pub fn give_up(&mut self, prepared: PreparedCuts<A>) -> GaveUp<A>
        ensures gate { CommitsCuts self.old prepared self.new }
        ensures answer { result ≡ prepared.answer }
    {
        let PreparedCuts { walk, answer } = prepared;
        forget_between(&mut self.cells, self.walk.next, walk.next);
        self.walk = walk;
        answer
    }
}
