//! The keys of rows, and their kinds.

ghost use Rattle.std.specs.Prelude.{◌≡◌};
ghost use Rattle.desk_rows.specs.Order.{key_precedes};
ghost use Rattle.desk_rows.specs.Row.{kind_of, rank, key_numbers, same_key, owner_of};

/// The key of a row: its kind and one number, or two for a gain. No two rows of a desk have one key.
#[derive(Clone, Copy)]
pub enum Key {
    /// A room, by its number.
    Room(u32),
    /// A member, by its number.
    Member(u32),
    /// A source, by its SSRC.
    Source(u32),
    /// A slot, by the SSRC of its stream.
    Slot(u32),
    /// A subscription, by the SSRC of its slot's stream.
    Sub(u32),
    /// A mute, by the SSRC of its source.
    Mute(u32),
    /// A gain, by the number of the member that hears and the SSRC of the source.
    Gain { member: u32, source: u32 },
    /// A pin, by the number of its room.
    Pin(u32),
    /// A floor, by the number of its room.
    Floor(u32),
}

/// The kind of a row.
// A definition ends in one case for all other kinds only where that case refuses or finds nothing. Where it would be
// lenient each kind is written out, so that the prover refuses a further kind until it has its case.
#[derive(Clone, Copy)]
pub enum Kind {
    Room,
    Member,
    Source,
    Slot,
    Sub,
    Mute,
    Gain,
    Pin,
    Floor,
}

impl Kind {
    /// The place of the kind among all kinds. Gains may be many, so they stand first: only a change of a gain moves
    /// them.
    pub(crate) fn rank(self) -> u32
        ensures { result ≡ rank self }
    {
        match self {
            Kind::Gain => 0,
            Kind::Room => 1,
            Kind::Member => 2,
            Kind::Source => 3,
            Kind::Slot => 4,
            Kind::Sub => 5,
            Kind::Mute => 6,
            Kind::Pin => 7,
            Kind::Floor => 8,
        }
    }
}

impl Key {
    /// The kind of the row that it names.
    pub fn kind(self) -> Kind
        ensures { result ≡ kind_of self }
    {
        match self {
            Key::Room(_) => Kind::Room,
            Key::Member(_) => Kind::Member,
            Key::Source(_) => Kind::Source,
            Key::Slot(_) => Kind::Slot,
            Key::Sub(_) => Kind::Sub,
            Key::Mute(_) => Kind::Mute,
            Key::Gain { .. } => Kind::Gain,
            Key::Pin(_) => Kind::Pin,
            Key::Floor(_) => Kind::Floor,
        }
    }

    /// Numbers that are equal for equal keys only: the kind's rank, then 0 or a gain's member, then the other number.
    // Equality and order go by these numbers. A table of pairs of kinds would grow by the square of the kinds.
    pub(crate) fn numbers(self) -> [u32; 3]
        ensures { result ≡ key_numbers self }
    {
        let kind = self.kind().rank();
        match self {
            Key::Room(number) => [kind, 0, number],
            Key::Member(number) => [kind, 0, number],
            Key::Source(number) => [kind, 0, number],
            Key::Slot(number) => [kind, 0, number],
            Key::Sub(number) => [kind, 0, number],
            Key::Mute(number) => [kind, 0, number],
            Key::Gain { member, source } => [kind, member, source],
            Key::Pin(number) => [kind, 0, number],
            Key::Floor(number) => [kind, 0, number],
        }
    }

    /// The key of the row whose number this key has: the slot of a subscription, the source of a mute, the room of a
    /// pin or a floor. Any other key is its own owner.
    pub fn owner(self) -> Key
        ensures { result ≡ owner_of self }
    {
        match self {
            Key::Sub(number) => Key::Slot(number),
            Key::Mute(number) => Key::Source(number),
            Key::Pin(number) => Key::Room(number),
            Key::Floor(number) => Key::Room(number),
            Key::Room(_) | Key::Member(_) | Key::Source(_) | Key::Slot(_) | Key::Gain { .. } =>
                self,
        }
    }

    /// Whether both keys are equal.
    pub fn is_same(self, other: Key) -> bool
        ensures { result ≡ same_key self other }
    {
        self.numbers() == other.numbers()
    }

    /// Whether this key stands before the other. The first numbers that differ decide.
    pub(crate) fn precedes(self, other: Key) -> bool
        ensures { result ≡ key_precedes self other }
    {
        let [kind, first, second] = self.numbers();
        let [other_kind, other_first, other_second] = other.numbers();
        if kind != other_kind {
            return kind < other_kind;
        }
        if first != other_first {
            return first < other_first;
        }
        second < other_second
    }
}
