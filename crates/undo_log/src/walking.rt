//! Absorbs, takes back and inverts lists of edits, one edit after another.

ghost use Rattle.std.specs.Prelude.{◌≡◌, ◌<◌, ◌≤◌, true, false, fold, length, take};
ghost use Rattle.undo_log.specs.Timeline.{all_fit};
ghost use Rattle.undo_log.specs.Lists.{after_all, inverses};

use crate::reversible::Reversible;

/// Absorbs edits until one does not fit. Returns the number of absorbed ones.
fn absorb_front<S: Reversible>(state: &mut S, edits: &[S::Edit]) -> usize
    ensures within { result ≤ length edits.now }
    ensures fit { all_fit S.can_absorb S.after state.old (take result edits.now) ≡ true }
    ensures state { state.new ≡ fold S.after state.old (take result edits.now) }
    ensures stop { result < length edits.now → all_fit S.can_absorb S.after state.old edits.now ≡ false }
{
    for (done, edit) in edits.iter().enumerate() {
        if !state.fits(edit) {
            return done;
        }
        state.absorb_fitting(edit);
    }
    edits.len()
}

/// Takes the edits back, the last one first.
pub(crate) fn take_back<S: Reversible>(state: &mut S, edits: &[S::Edit])
    requires { all_fit S.can_absorb S.after state.old (inverses S.inverse edits.now) ≡ true }
    ensures { state.new ≡ after_all S.can_absorb S.after state.old (inverses S.inverse edits.now) }
{
    let mut i = edits.len();
    while i > 0 {
        i -= 1;
        state.absorb_back(&edits[i]);
    }
}

/// Whether the edits fit, one after another. The state is as it was afterwards.
pub(crate) fn fit_all<S: Reversible>(state: &mut S, edits: &[S::Edit]) -> bool
    ensures answer { result ≡ all_fit S.can_absorb S.after state.old edits.now }
    ensures same { state.new ≡ state.old }
{
    let done = absorb_front(state, edits);
    take_back(state, &edits[..done]);
    done == edits.len()
}

/// Absorbs the edits. If one does not fit, those before it are taken back.
pub(crate) fn absorb_all<S: Reversible>(state: &mut S, edits: &[S::Edit])
    ensures { state.new ≡ after_all S.can_absorb S.after state.old edits.now }
{
    let done = absorb_front(state, edits);
    if done < edits.len() {
        take_back(state, &edits[..done]);
    }
}

/// Absorbs edits that fit one after another, without checking them again.
pub(crate) fn absorb_each<S: Reversible>(state: &mut S, edits: &[S::Edit])
    requires { all_fit S.can_absorb S.after state.old edits.now ≡ true }
    ensures { state.new ≡ after_all S.can_absorb S.after state.old edits.now }
{
    let mut rest = edits;
    while let Some((edit, later)) = rest.split_first() {
        state.absorb_fitting(edit);
        rest = later;
    }
}

/// Inverts each edit and reverses their order, in place. It takes no memory.
pub(crate) fn invert_all<S: Reversible>(items: &mut Vec<S::Edit, S::Alloc>)
    ensures { items.new.items ≡ inverses S.inverse items.old.items }
{
    let count = items.len();
    for place in 0..count {
        let Some(edit) = items.pop() else {
            return;
        };
        if items.insert(place, S::invert(edit)).is_err() {
            return;
        }
    }
}
