//! The answers of the receive side to a datagram and to a wait.

ghost use Rattle.std.specs.Prelude.{◌≡◌, true, map};
ghost use Rattle.std.specs.List.{list_all};
ghost use Rattle.media_items.specs.Inputs.{input_of, is_sized};

use crate::outcome::Outcome;
use crate::received::Received;
use crate::sound_count::SoundCount;
use media_items::Item;
use rtp_codec::Address;
use std::alloc::{Allocator, Global};

/// The answer to a datagram.
// `sized` is a fact of the value itself: the clause on items speaks of the sources that were known before, which the
// caller of a lane need not have.
#[derive(Drop)]
pub struct Ingest<A: Allocator + Copy = Global> {
    /// What the datagram was.
    pub received: Received<A>,
    /// Datagrams to send, with the addresses that they go to.
    pub up: Vec<(Address, Vec<u8, A>), A>,
    /// The items for each lane, in this order.
    pub items: Vec<Item<A>, A>,
    /// Audio items have 1 sample to 200 ms.
    pub ghost sized: { list_all is_sized (map input_of items.items) ≡ true },
}

impl<A: Allocator + Copy> Ingest<A> {
    ghost use Rattle.std.specs.Prelude.{false};
    ghost use Rattle.ingress.specs.Energy.{no_sound};
    ghost use Rattle.ingress.specs.Ingested.{only, ingested_of};
    ghost use Rattle.ingress.specs.Received.{with_outcome};
    ghost use Rattle.ingress.specs.inner.Effects.{effect_of};

    /// An answer with nothing but what the datagram was, and its outcome.
    pub(crate) fn only(alloc: A, received: Received<A>, outcome: Outcome) -> Self
        ensures ingest { ingested_of result ≡ only outcome }
        ensures received { result.received ≡ with_outcome outcome false no_sound received }
    {
        let mut received = received;
        received.outcome = outcome;
        received.begins = false;
        received.sound = SoundCount::nothing();
        Self {
            received,
            up: Vec::new(alloc),
            items: Vec::new(alloc),
        }
    }

    /// The answer to a datagram of which this came.
    pub(crate) fn of(received: Received<A>, effect: Effect<A>) -> Self
        ensures ingest { ingested_of result ≡ effect_of effect }
        ensures received { result.received ≡ with_outcome effect.outcome effect.begins effect.sound received }
    {
        let Effect {
            outcome,
            begins,
            sound,
            up,
            items,
        } = effect;
        let mut received = received;
        received.outcome = outcome;
        received.begins = begins;
        received.sound = sound;
        Self {
            received,
            up,
            items,
        }
    }
}

/// What comes of a datagram that was read: of a packet for its source, or of a compound for its member.
#[derive(Drop)]
pub(crate) struct Effect<A: Allocator + Copy = Global> {
    /// The outcome of the datagram.
    pub(crate) outcome: Outcome,
    /// Whether an epoch of its source begins with it.
    pub(crate) begins: bool,
    /// What is counted of its sound.
    pub(crate) sound: SoundCount,
    /// Datagrams to send, with the addresses that they go to.
    pub(crate) up: Vec<(Address, Vec<u8, A>), A>,
    /// The items for each lane, in this order.
    pub(crate) items: Vec<Item<A>, A>,
    /// Audio items have 1 sample to 200 ms.
    pub(crate) ghost sized: { list_all is_sized (map input_of items.items) ≡ true },
}

impl<A: Allocator + Copy> Effect<A> {
    ghost use Rattle.std.specs.Prelude.{false};
    ghost use Rattle.ingress.specs.Energy.{no_sound};
    ghost use Rattle.ingress.specs.Ingested.{only};
    ghost use Rattle.ingress.specs.inner.Effects.{effect_of};

    /// Nothing but an outcome.
    pub(crate) fn only(alloc: A, outcome: Outcome) -> Self
        ensures effect { effect_of result ≡ only outcome }
        ensures begins { result.begins ≡ false }
        ensures sound { result.sound ≡ no_sound }
    {
        Self {
            outcome,
            begins: false,
            sound: SoundCount::nothing(),
            up: Vec::new(alloc),
            items: Vec::new(alloc),
        }
    }
}

/// The answer to a wait.
#[derive(Drop)]
pub struct WaitAnswer<A: Allocator + Copy = Global> {
    /// Datagrams to send, with the addresses that they go to: at most one.
    pub up: Vec<(Address, Vec<u8, A>), A>,
    /// The items for each lane, in this order: frames alone.
    pub items: Vec<Item<A>, A>,
    /// No item is audio of a wrong size.
    pub ghost sized: { list_all is_sized (map input_of items.items) ≡ true },
}

impl<A: Allocator + Copy> WaitAnswer<A> {
    ghost use Rattle.ingress.specs.Ingested.{only, answered_of};
    ghost use Rattle.ingress.specs.declared.outcome.Outcome.TheVariants.{Unknown};

    /// An answer with nothing in it.
    pub(crate) fn nothing(alloc: A) -> Self
        ensures { answered_of result ≡ only Unknown }
    {
        Self {
            up: Vec::new(alloc),
            items: Vec::new(alloc),
        }
    }
}
