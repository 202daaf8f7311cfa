//! Waits: time passes for a source, and nothing comes.

ghost use Rattle.std.specs.Prelude.{◌≡◌, ◌≤◌, true, is_some, length, IfOk, OnErr};
ghost use Rattle.frame_gate.specs.Epochs.{most_missing};
ghost use Rattle.ingress.specs.Ingested.{answered_of, IsAbout};
ghost use Rattle.ingress.specs.Waiting.{video_waited};
ghost use Rattle.ingress.specs.Ingresses.{Moves};
ghost use Rattle.ingress.specs.inner.MediaPackets.{origin_in};
ghost use Rattle.ingress.specs.inner.SourceEntries.{ReadiesWait, gate_in};
ghost use Rattle.ingress.specs.inner.Holding.{key_of, kept_at};
ghost use Rattle.ingress.specs.inner.Moves.{WaitsAtGate};

use crate::gating::{gate_for, put_frames};
use crate::ingest::WaitAnswer;
use crate::ingress::Ingress;
use crate::known::{OriginKey, key_of};
use crate::media_packet::Origin;
use frame_gate::PreparedWait;
use std::alloc::{AllocError, Allocator};

/// The key of a source.
fn origin_key(origin: Origin) -> OriginKey
    ensures { result ≡ key_of (origin_in origin) }
{
    key_of(&origin.address, origin.ssrc)
}

impl<A: Allocator + Copy> Ingress<A> {
    /// Prepares a wait for a source's gate, if it has one.
    fn prepared_wait(
        &self,
        alloc: A,
        key: &OriginKey,
    ) -> Result<Option<PreparedWait<A>>, AllocError>
        ensures { IfOk result (λ r. ReadiesWait (gate_in (kept_at key.now self.now.entries)) r) }
    {
        match gate_for(self.known.at(key), false) {
            None => Ok(None),
            Some(gate) => {
                let prepared = gate.prepare_wait(alloc)?;
                Ok(Some(prepared))
            }
        }
    }

    /// Commits a prepared wait at its source's gate.
    fn at_wait(
        &mut self,
        alloc: A,
        origin: Origin,
        moment: u64,
        prepared: PreparedWait<A>,
    ) -> Result<WaitAnswer<A>, AllocError>
        requires few { length prepared.nacks ≤ most_missing }
        requires ready { is_some (gate_in (kept_at (key_of (origin_in origin)) self.old.entries)) ≡ true }
        ensures waits { IfOk result
            (λ answer. WaitsAtGate self.old self.new (origin_in origin) moment prepared (answered_of answer)) }
        ensures about { IfOk result (λ answer. IsAbout origin.address (answered_of answer)) }
        ensures err { OnErr result (self.new ≡ self.old) }
        ensures asker { self.new.asker ≡ self.old.asker }
    {
        let up = self.asked(alloc, origin, prepared.nacks(), prepared.gives_up())?;
        let mut items = Vec::with_capacity(alloc, prepared.frames().len())?;
        let (epoch, waited) = self.known.wait(&origin_key(origin), prepared);
        put_frames(&mut items, origin, moment, epoch, waited.frames);
        Ok(WaitAnswer { up, items })
    }

    /// Has a wait of a video source.
    pub(crate) fn video_wait(
        &mut self,
        alloc: A,
        origin: Origin,
        moment: u64,
    ) -> Result<WaitAnswer<A>, AllocError>
        ensures moves { IfOk result
            (λ answer. Moves self.old self.new (answered_of answer)
            (λ voice s. video_waited voice (origin_in origin) moment s)) }
        ensures about { IfOk result (λ answer. IsAbout origin.address (answered_of answer)) }
        ensures err { OnErr result (self.new ≡ self.old) }
        ensures asker { self.new.asker ≡ self.old.asker }
    {
        match self.prepared_wait(alloc, &origin_key(origin))? {
            None => Ok(WaitAnswer::nothing(alloc)),
            Some(prepared) => self.at_wait(alloc, origin, moment, prepared),
        }
    }
}
