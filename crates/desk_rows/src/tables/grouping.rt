//! Kinds of row that are listed in groups, which binary search finds.

ghost use Rattle.std.specs.Prelude.{◌≡◌, ℕ, true, false, filter, nat_eq, Option, None, refl};
ghost use Rattle.desk_rows.specs.declared.key.Kind.TheVariants as kinds;
ghost use Rattle.desk_rows.specs.declared.row.Row.TheVariants.{Member as MemberRow, Slot as SlotRow, Sub as SubRow};
ghost use Rattle.desk_rows.specs.Kinds.{is_of};
ghost use Rattle.desk_rows.specs.Getters.{member_in, slot_in, sub_in};
ghost use Rattle.desk_rows.specs.laws.NamingLaws.{no_member, no_slot, no_sub};
ghost use Rattle.desk_rows.specs.inner.tables.Grouped.{stand_by, in_turn};

use crate::key::Kind;
use crate::row::{Member, Row, Slot, Sub};

/// A kind of row that is listed in groups.
pub(crate) trait Grouped: Copy {
    ghost use Rattle.std.specs.Prelude.{Some};
    ghost use Rattle.desk_rows.specs.declared.key.Kind.{Kind};
    ghost use Rattle.desk_rows.specs.declared.row.Row.{Row};

    ghost kind: { Kind };

    ghost in_row: { Row → Option Self };

    ghost group: { Self → ℕ };

    ghost turn: { Self → ℕ };

    ghost as_row: { Self → Row };

    fn kind() -> Kind
        ensures { result ≡ kind };

    /// The entry in a row, if the row is of the kind.
    fn in_row(row: &Row) -> Option<Self>
        ensures { result ≡ in_row row.now };

    /// The number of its group.
    fn group(&self) -> u32
        ensures { result ≡ group self.now };

    /// The number by which it is ordered in its group.
    fn turn(&self) -> u32
        ensures { result ≡ turn self.now };

    /// The row that has it.
    fn as_row(&self) -> Row
        ensures { result ≡ as_row self.now };

    /// No row of another kind has one.
    ghost of_kind: { (r : Row) → is_of kind r ≡ false → in_row r ≡ None };

    /// Its row has this one.
    ghost its_row: { (one : Self) → in_row (as_row one) ≡ Some one };
}

/// By the source that they name.
impl Grouped for Sub {
    ghost kind = { kinds.Sub };

    ghost in_row = { sub_in };

    ghost group = { λ s. s.source };

    ghost turn = { λ s. s.out_ssrc };

    ghost as_row = { SubRow };

    fn kind() -> Kind {
        Kind::Sub
    }

    fn in_row(row: &Row) -> Option<Sub> {
        row.as_sub()
    }

    fn group(&self) -> u32 {
        self.source
    }

    fn turn(&self) -> u32 {
        self.out_ssrc
    }

    fn as_row(&self) -> Row {
        Row::Sub(*self)
    }

    ghost of_kind = { no_sub };

    ghost its_row = { λ one. refl };
}

/// By their members.
impl Grouped for Slot {
    ghost kind = { kinds.Slot };

    ghost in_row = { slot_in };

    ghost group = { λ s. s.member };

    ghost turn = { λ s. s.index };

    ghost as_row = { SlotRow };

    fn kind() -> Kind {
        Kind::Slot
    }

    fn in_row(row: &Row) -> Option<Slot> {
        row.as_slot()
    }

    fn group(&self) -> u32 {
        self.member
    }

    fn turn(&self) -> u32 {
        self.index
    }

    fn as_row(&self) -> Row {
        Row::Slot(*self)
    }

    ghost of_kind = { no_slot };

    ghost its_row = { λ one. refl };
}

/// By their rooms.
impl Grouped for Member {
    ghost kind = { kinds.Member };

    ghost in_row = { member_in };

    ghost group = { λ m. m.room };

    ghost turn = { λ m. m.member };

    ghost as_row = { MemberRow };

    fn kind() -> Kind {
        Kind::Member
    }

    fn in_row(row: &Row) -> Option<Member> {
        row.as_member()
    }

    fn group(&self) -> u32 {
        self.room
    }

    fn turn(&self) -> u32 {
        self.member
    }

    fn as_row(&self) -> Row {
        Row::Member(*self)
    }

    ghost of_kind = { no_member };

    ghost its_row = { λ one. refl };
}

/// The group of this number.
pub(crate) fn group_of<T: Grouped>(table: &[T], number: u32) -> &[T]
    requires { stand_by (in_turn T.group T.turn) table.now ≡ true }
    ensures { result.now ≡ filter (λ x. nat_eq (T.group x) number) table.now }
{
    let before = table.partition_point(|one| one.group() < number);
    let (_, from) = table.split_at(before);
    let count = from.partition_point(|one| one.group() <= number);
    let (these, _) = from.split_at(count);
    these
}
