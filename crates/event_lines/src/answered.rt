//! What a budget answered, in proofs alone.

ghost use Rattle.std.specs.Prelude.{◌≡◌, [], ◌∷◌, ◌++◌};
ghost use Rattle.event_lines.specs.Answers.{answer_list};
ghost use Rattle.event_lines.specs.Lines.{wrote, left, told};

use std::snapshot::Snapshot;

/// All that a budget answered. It exists in proofs alone, and takes no memory for what was answered.
#[derive(Drop)]
pub enum Answered {
    /// Nothing.
    Nothing,
    /// Then the line of an event was written.
    Wrote {
        /// What was answered before.
        before: Snapshot<Answered>,
        /// When it was written.
        moment: Snapshot<u64>,
    },
    /// Then some events were left without a line.
    Left {
        /// What was answered before.
        before: Snapshot<Answered>,
        /// How many.
        events: Snapshot<u64>,
    },
    /// Then a line told of all events without one that no line had told of.
    Told {
        /// What was answered before.
        before: Snapshot<Answered>,
        /// When it was written.
        moment: Snapshot<u64>,
        /// How many.
        events: Snapshot<u64>,
    },
}

impl Answered {
    /// Nothing.
    pub(crate) fn new() -> Self
        ensures { answer_list result ≡ [] }
    {
        Answered::Nothing
    }

    /// Notes the line of an event.
    pub(crate) fn note_line(&mut self, moment: u64)
        ensures { answer_list self.new ≡ answer_list self.old ++ wrote moment ∷ [] }
    {
        let before = Snapshot::of(&*self);
        let moment = Snapshot::of(&moment);
        *self = Answered::Wrote { before, moment };
    }

    /// Notes events without a line.
    pub(crate) fn note_left(&mut self, events: u64)
        ensures { answer_list self.new ≡ answer_list self.old ++ left events ∷ [] }
    {
        let before = Snapshot::of(&*self);
        let events = Snapshot::of(&events);
        *self = Answered::Left { before, events };
    }

    /// Notes a line that told of these.
    pub(crate) fn note_told(&mut self, moment: u64, events: u64)
        ensures { answer_list self.new ≡ answer_list self.old ++ told moment events ∷ [] }
    {
        let before = Snapshot::of(&*self);
        let moment = Snapshot::of(&moment);
        let events = Snapshot::of(&events);
        *self = Answered::Told {
            before,
            moment,
            events,
        };
    }
}
