//! Takes a judged packet into its source.

ghost use Rattle.std.specs.Prelude.{◌≡◌, ◌+◌, ◌&&◌, true, false, nat_eq, if◌then◌else◌, IfOk, OnOk, OnErr};
ghost use Rattle.std.specs.Prelude.{IfSome, is_some, None, map};
ghost use Rattle.std.specs.List.{list_all};
ghost use Rattle.media_items.specs.Inputs.{input_of, is_sized};
ghost use Rattle.ingress.specs.Energy.{no_sound};
ghost use Rattle.ingress.specs.Ingested.{only, with_items};
ghost use Rattle.ingress.specs.Media.{told};
ghost use Rattle.ingress.specs.Taking.{most_epochs};
ghost use Rattle.ingress.specs.inner.Effects.{effect_of, IsOfPacket};
ghost use Rattle.ingress.specs.inner.SourceEntries.{Validates, base_of, gate_for};
ghost use Rattle.ingress.specs.inner.Freed.{freed_by};
ghost use Rattle.ingress.specs.inner.Holding.{kept_for};
ghost use Rattle.ingress.specs.inner.Moves.{outcome_at, state_in, epoch_in, IsKept, Advances};

use crate::admitting::Admission;
use crate::ingest::Effect;
use crate::ingress::Ingress;
use crate::known::OriginKey;
use crate::outcome::Outcome;
use crate::sounding::PacketSound;
use crate::source_entry::NextState;
use crate::validating::{RtpArrival, Validated, validate_first, validate_known};
use frame_gate::{Frame, Place};
use source_valid::Verdict;
use std::alloc::{AllocError, Allocator};

/// The outcome of a packet with this verdict, by its place at its source's gate.
pub(crate) fn outcome_at(verdict: Verdict, place: Place) -> Outcome
    ensures { result ≡ outcome_at verdict place }
{
    match verdict {
        Verdict::Probation => Outcome::Probation,
        Verdict::Accepted { ext } => {
            match place {
                Place::Taken => Outcome::Accepted { ext },
                Place::Late => Outcome::Late { ext },
                Place::Duplicate => Outcome::Duplicate { ext },
            }
        }
        Verdict::Jump => Outcome::Jump,
        Verdict::Restarted { ext } => Outcome::Restarted { ext },
    }
}

/// The number of epochs, with the one that begins now if any.
fn counted(epochs: u64, begins: bool) -> u64
    requires { (begins && nat_eq epochs most_epochs) ≡ false }
    ensures { result ≡ (if begins then epochs + 1 else epochs) }
{
    if begins { epochs + 1 } else { epochs }
}

impl<A: Allocator + Copy> Ingress<A> {
    /// Judges a packet by its source.
    #[inline(always)]
    pub(crate) fn validated(&self, key: &OriginKey, arriving: RtpArrival) -> Validated
        ensures validates { Validates (state_in (kept_for key.now arriving.rate self.now.entries)) arriving result }
        ensures epoch { result.epoch ≡ epoch_in (kept_for key.now result.rate self.now.entries) }
    {
        match self.known.at_rate(key, arriving.rate) {
            None => validate_first(arriving),
            Some(kept) => validate_known(kept.source, kept.epoch, arriving),
        }
    }

    /// Whether the packet would begin an epoch, but no number is left for it.
    pub(crate) fn is_spent(&self, validated: &Validated) -> bool
        ensures { result ≡ (validated.now.begins && nat_eq self.now.epochs most_epochs) }
    {
        validated.begins && self.epochs == u64::MAX
    }

    /// The epoch of a source after this packet.
    pub(crate) fn epoch_for(&self, validated: &Validated) -> u64
        requires { (validated.now.begins && nat_eq self.now.epochs most_epochs) ≡ false }
        ensures { result ≡ (if validated.now.begins then self.now.epochs + 1 else validated.now.epoch) }
    {
        if validated.begins {
            return self.epochs + 1;
        }
        validated.epoch
    }

    /// Puts the next state of a source in its place. Gives the frames that the packet frees.
    #[inline(always)]
    fn put_next(
        &mut self,
        alloc: A,
        key: OriginKey,
        next: NextState<A>,
    ) -> Result<Vec<Frame<A>, A>, AllocError>
        requires below { (next.begins && nat_eq self.old.epochs most_epochs) ≡ false }
        requires ready { IfSome next.admission
            (λ a. is_some (base_of (gate_for (kept_for key next.rate self.old.entries) next.begins) a) ≡ true) }
        ensures kept { OnOk result (IsKept self.old self.new key next) }
        ensures frames { IfOk result (λ frames. frames.items ≡ freed_by next.admission) }
        ensures err { OnErr result (self.new ≡ self.old) }
        ensures asker { self.new.asker ≡ self.old.asker }
    {
        let begins = next.begins;
        let frames = self.known.put_next(alloc, key, next)?;
        self.epochs = counted(self.epochs, begins);
        Ok(frames)
    }

    /// Keeps a source after a judged packet. Gives the frames that the packet frees.
    #[inline(always)]
    pub(crate) fn advance(
        &mut self,
        alloc: A,
        key: OriginKey,
        validated: &Validated,
        admission: Option<Admission<A>>,
    ) -> Result<Vec<Frame<A>, A>, AllocError>
        requires below { (validated.now.begins && nat_eq self.old.epochs most_epochs) ≡ false }
        requires epoch { validated.now.epoch ≡ epoch_in (kept_for key validated.now.rate self.old.entries) }
        requires ready { IfSome admission
            (λ a. is_some
            (base_of (gate_for (kept_for key validated.now.rate self.old.entries) validated.now.begins) a) ≡ true) }
        ensures advances { OnOk result (Advances self.old self.new key validated.now admission) }
        ensures frames { IfOk result (λ frames. frames.items ≡ freed_by admission) }
        ensures err { OnErr result (self.new ≡ self.old) }
        ensures asker { self.new.asker ≡ self.old.asker }
    {
        let next = NextState {
            rate: validated.rate,
            source: validated.source,
            epoch: self.epoch_for(validated),
            begins: validated.begins,
            admission,
        };
        self.put_next(alloc, key, next)
    }

    /// Keeps a source whose packet asks for nothing. Answers the verdict, with what is heard of the packet.
    #[tactic(auto, using(crate::proofs::VerdictLemmas::told_at_no_gate))]
    pub(crate) fn verdict_with(
        &mut self,
        alloc: A,
        key: OriginKey,
        validated: &Validated,
        heard: PacketSound<A>,
    ) -> Result<Effect<A>, AllocError>
        requires below { (validated.now.begins && nat_eq self.old.epochs most_epochs) ≡ false }
        requires epoch { validated.now.epoch ≡ epoch_in (kept_for key validated.now.rate self.old.entries) }
        requires sized { list_all is_sized (map input_of heard.items.items) ≡ true }
        ensures advances { OnOk result (Advances self.old self.new key validated.now None) }
        ensures effect { IfOk result
            (λ effect. effect_of effect
            ≡ with_items (told validated.now.verdict) (map input_of heard.items.items)) }
        ensures sound { IfOk result (λ effect. effect.sound ≡ heard.sound) }
        ensures packet { IfOk result (IsOfPacket self.old self.new) }
        ensures err { OnErr result (self.new ≡ self.old) }
        ensures asker { self.new.asker ≡ self.old.asker }
    {
        self.advance(alloc, key, validated, None)?;
        let PacketSound { items, sound } = heard;
        Ok(Effect {
            outcome: outcome_at(validated.verdict, Place::Taken),
            begins: validated.begins,
            sound,
            up: Vec::new(alloc),
            items,
        })
    }

    /// Keeps a source whose packet has no effect but its verdict.
    pub(crate) fn verdict_only(
        &mut self,
        alloc: A,
        key: OriginKey,
        validated: &Validated,
    ) -> Result<Effect<A>, AllocError>
        requires below { (validated.now.begins && nat_eq self.old.epochs most_epochs) ≡ false }
        requires epoch { validated.now.epoch ≡ epoch_in (kept_for key validated.now.rate self.old.entries) }
        ensures advances { OnOk result (Advances self.old self.new key validated.now None) }
        ensures effect { IfOk result (λ effect. effect_of effect ≡ only (told validated.now.verdict)) }
        ensures sound { IfOk result (λ effect. effect.sound ≡ no_sound) }
        ensures packet { IfOk result (IsOfPacket self.old self.new) }
        ensures err { OnErr result (self.new ≡ self.old) }
        ensures asker { self.new.asker ≡ self.old.asker }
    {
        self.verdict_with(alloc, key, validated, PacketSound::nothing(alloc))
    }
}
