//! What was done on an operator's connection, in proofs alone.

ghost use Rattle.std.specs.Prelude.{◌≡◌, [], ◌∷◌, ◌++◌, take};
ghost use Rattle.operator_connection.specs.Acts.{waited, looked, read, wrote, octet_count};
ghost use Rattle.operator_connection.specs.LineLogs.{act_list, offered_octets};

use crate::talking::Came;
use std::snapshot::Snapshot;

/// All that was done on a connection. It exists in proofs alone, and takes no memory for what was done. Octets that are
/// written are noted one by one.
#[derive(Drop)]
pub enum LineLog {
    /// Nothing.
    Nothing,
    /// Then the socket was waited for.
    Waited {
        /// What was done before.
        before: Snapshot<LineLog>,
        /// For how many milliseconds at most.
        longest: Snapshot<u64>,
        /// Whether anything was reported.
        any: Snapshot<bool>,
    },
    /// Then the clock told a moment.
    Looked {
        /// What was done before.
        before: Snapshot<LineLog>,
        /// The moment.
        moment: Snapshot<u64>,
    },
    /// Then there was a read.
    Read {
        /// What was done before.
        before: Snapshot<LineLog>,
        /// What the read gave.
        came: Snapshot<Came>,
        /// What it was read into.
        chunk: Snapshot<Vec<u8>>,
    },
    /// Then a write was begun.
    Begun {
        /// What was done before.
        before: Snapshot<LineLog>,
    },
    /// Then it was offered an octet more.
    Offered {
        /// What was done before.
        before: Snapshot<LineLog>,
        /// The octet.
        octet: Snapshot<u8>,
    },
    /// Then it was made.
    Wrote {
        /// What was done before.
        before: Snapshot<LineLog>,
        /// What it gave.
        came: Snapshot<Came>,
    },
}

impl LineLog {
    /// Nothing.
    pub fn new() -> Self
        ensures { act_list result ≡ [] }
    {
        LineLog::Nothing
    }

    /// Notes that the socket was waited for.
    pub fn note_wait(&mut self, longest: u64, any: bool)
        ensures { act_list self.new ≡ act_list self.old ++ waited longest any ∷ [] }
    {
        let before = Snapshot::of(&*self);
        let longest = Snapshot::of(&longest);
        let any = Snapshot::of(&any);
        *self = LineLog::Waited {
            before,
            longest,
            any,
        };
    }

    /// Notes that the clock told this moment.
    pub fn note_look(&mut self, moment: u64)
        ensures { act_list self.new ≡ act_list self.old ++ looked moment ∷ [] }
    {
        let before = Snapshot::of(&*self);
        let moment = Snapshot::of(&moment);
        *self = LineLog::Looked { before, moment };
    }

    /// Notes what a read into a chunk gave.
    pub fn note_read(&mut self, came: Came, chunk: &Vec<u8>)
        ensures { act_list self.new
            ≡ act_list self.old ++ read came (take (octet_count came) chunk.now.items) ∷ [] }
    {
        let before = Snapshot::of(&*self);
        let came = Snapshot::of(&came);
        let chunk = Snapshot::of(chunk);
        *self = LineLog::Read {
            before,
            came,
            chunk,
        };
    }

    /// Notes that the write which was begun was offered an octet more.
    fn offer(&mut self, octet: u8)
        ensures more { offered_octets self.new ≡ offered_octets self.old ++ octet ∷ [] }
        ensures same { act_list self.new ≡ act_list self.old }
    {
        let before = Snapshot::of(&*self);
        let octet = Snapshot::of(&octet);
        *self = LineLog::Offered { before, octet };
    }

    /// Notes what a write of these octets gave.
    pub fn note_write(&mut self, came: Came, octets: &[u8])
        ensures { act_list self.new ≡ act_list self.old ++ wrote came octets.now ∷ [] }
    {
        let before = Snapshot::of(&*self);
        *self = LineLog::Begun { before };
        for octet in octets {
            self.offer(*octet);
        }
        let before = Snapshot::of(&*self);
        let came = Snapshot::of(&came);
        *self = LineLog::Wrote { before, came };
    }
}
