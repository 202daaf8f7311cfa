//! Logs that exist in proofs alone, by which a socket and a clock know what was done on them. They take no memory; that
//! of a clock keeps the latest moment, so that none is told that is earlier.

ghost use Rattle.std.specs.Prelude.{◌≡◌, [], ◌∷◌, ◌++◌, max};
ghost use Rattle.event_loop.specs.Came.{came_by};
ghost use Rattle.event_loop.specs.Moments.{AreUpTo, latest};
ghost use Rattle.event_loop.specs.Logs.{read_list, told_list, tried_list, begun_octets};

use crate::inlet::Read as WhatCame;
use rtp_codec::Address;
use std::marker::Model;
use std::snapshot::Snapshot;

/// What was read.
#[derive(Drop)]
pub enum ReadLog {
    /// Nothing.
    Nothing,
    /// Then there was a read.
    Read {
        /// What was read before.
        before: Snapshot<ReadLog>,
        /// What the read gave.
        read: Snapshot<WhatCame>,
        /// What it was read into.
        chunk: Snapshot<Vec<u8>>,
    },
}

impl ReadLog {
    /// Nothing.
    pub fn new() -> Self
        ensures { read_list result ≡ [] }
    {
        ReadLog::Nothing
    }

    /// Notes what a read into a chunk gave.
    pub fn note(&mut self, read: &WhatCame, chunk: &Vec<u8>)
        ensures { read_list self.new ≡ read_list self.old ++ came_by read.now chunk.now.items ∷ [] }
    {
        let before = Snapshot::of(&*self);
        let read = Snapshot::of(read);
        let chunk = Snapshot::of(chunk);
        *self = ReadLog::Read {
            before,
            read,
            chunk,
        };
    }
}

/// The moments that were told, in proofs alone.
#[derive(Drop)]
pub(crate) enum ToldLog {
    /// None.
    Nothing,
    /// Then one was told.
    Told {
        /// What was told before.
        before: Snapshot<ToldLog>,
        /// The moment.
        moment: Snapshot<u64>,
    },
}

impl ToldLog {
    /// Notes that this moment was told.
    fn note(&mut self, moment: u64)
        ensures { told_list self.new ≡ told_list self.old ++ moment ∷ [] }
    {
        let before = Snapshot::of(&*self);
        let moment = Snapshot::of(&moment);
        *self = ToldLog::Told { before, moment };
    }
}

/// The moments that a clock told, which never go back.
///
/// Contracts see them, oldest first.
#[derive(Drop)]
pub struct WatchLog {
    /// The latest of them, or 0.
    last: u64,
    told: ToldLog,
}

impl Model for WatchLog {
    ghost use Rattle.std.specs.Prelude.{◌≡◌, ℕ, List};
    ghost use Rattle.event_loop.specs.Logs.{told_list};
    ghost use Rattle.event_loop.specs.Moments.{latest};

    ghost Value = { List ℕ };

    ghost view = { λ w. told_list w.told };

    ghost invariant = { λ w. w.last ≡ latest (told_list w.told) };
}

impl WatchLog {
    /// None.
    pub fn new() -> Self
        ensures { result ≡ [] }
    {
        Self {
            last: 0,
            told: ToldLog::Nothing,
        }
    }

    /// What is told where the clock reads this moment: the moment, or the latest that was told, if that is later. It is
    /// noted as told.
    pub fn tell(&mut self, moment: u64) -> u64
        ensures later { result ≡ max (latest self.old) moment }
        ensures noted { self.new ≡ self.old ++ result ∷ [] }
        ensures rising { AreUpTo result self.old }
    {
        let moment = self.last.max(moment);
        self.last = moment;
        self.told.note(moment);
        moment
    }
}

/// The datagrams that were tried. One is noted octet by octet.
#[derive(Drop)]
pub enum TryLog {
    /// None.
    Nothing,
    /// Then one was begun.
    Begun {
        /// What was done before.
        before: Snapshot<TryLog>,
    },
    /// Then it got an octet.
    Octet {
        /// What was done before.
        before: Snapshot<TryLog>,
        /// The octet.
        octet: Snapshot<u8>,
    },
    /// Then it was tried.
    Tried {
        /// What was done before.
        before: Snapshot<TryLog>,
        /// To whom.
        to: Snapshot<Address>,
        /// Whether it was sent.
        sent: Snapshot<bool>,
    },
}

impl TryLog {
    /// None.
    pub fn new() -> Self
        ensures { tried_list result ≡ [] }
    {
        TryLog::Nothing
    }

    /// Notes that a datagram was begun.
    fn begin(&mut self)
        ensures none { begun_octets self.new ≡ [] }
        ensures same { tried_list self.new ≡ tried_list self.old }
    {
        let before = Snapshot::of(&*self);
        *self = TryLog::Begun { before };
    }

    /// Notes that it got an octet.
    fn octet(&mut self, octet: u8)
        ensures more { begun_octets self.new ≡ begun_octets self.old ++ octet ∷ [] }
        ensures same { tried_list self.new ≡ tried_list self.old }
    {
        let before = Snapshot::of(&*self);
        let octet = Snapshot::of(&octet);
        *self = TryLog::Octet { before, octet };
    }

    /// Notes that it got these octets.
    fn octets(&mut self, octets: &[u8])
        ensures more { begun_octets self.new ≡ begun_octets self.old ++ octets.now }
        ensures same { tried_list self.new ≡ tried_list self.old }
    {
        for octet in octets {
            self.octet(*octet);
        }
    }

    /// Notes that it was tried.
    fn end(&mut self, to: Address, sent: bool)
        ensures { tried_list self.new
            ≡ tried_list self.old ++ record { to = to; octets = begun_octets self.old; sent = sent } ∷ [] }
    {
        let before = Snapshot::of(&*self);
        let to = Snapshot::of(&to);
        let sent = Snapshot::of(&sent);
        *self = TryLog::Tried { before, to, sent };
    }

    /// Notes that a datagram of these two parts was tried.
    pub fn note(&mut self, to: Address, first: &[u8], rest: &[u8], sent: bool)
        ensures { tried_list self.new
            ≡ tried_list self.old ++ record { to = to; octets = first.now ++ rest.now; sent = sent } ∷ [] }
    {
        self.begin();
        self.octets(first);
        self.octets(rest);
        self.end(to, sent);
    }
}
