//! Tables of rows in groups, which follow the edits of rows.

ghost use Rattle.std.specs.Prelude.{◌≡◌, ◌+◌, ◌<◌, ◌≤◌, not, cond, slice_index_or, Bool, true, filter};
ghost use Rattle.std.specs.Prelude.{length, count_by, nat_eq, vec_len, vec_capacity};
ghost use Rattle.std.specs.List.{filter_map};
ghost use Rattle.desk_rows.specs.Row.{same_row};
ghost use Rattle.desk_rows.specs.Kinds.{is_of};
ghost use Rattle.desk_rows.specs.Order.{in_order};
ghost use Rattle.desk_rows.specs.inner.tables.Grouped.{stand_by, in_turn, passes_in, IsTableOf};
ghost use Rattle.desk_rows.specs.inner.judging.Judged.{HasOrders};
ghost use Rattle.desk_rows.specs.inner.tables.Roomed.{IsByRoom};

use crate::borrowed::EditLists;
use crate::key::Kind;
use crate::ordering::rows_of_kind;
use crate::row::{Member, Row};
use crate::tables::grouping::Grouped;
use std::alloc::Allocator;

/// Whether an entry is the same as the other.
fn is_same<T: Grouped>(one: &T, other: &T) -> bool
    ensures { result ≡ same_row (T.as_row one.now) (T.as_row other.now) }
{
    one.as_row().is_same(&other.as_row())
}

/// Whether an entry stands before the other.
fn precedes<T: Grouped>(one: &T, other: &T) -> bool
    ensures { result ≡ not (in_turn T.group T.turn other.now one.now) }
{
    let (group, other_group) = (one.group(), other.group());
    group < other_group || (group == other_group && one.turn() < other.turn())
}

/// Lists the entries of these rows, within the table's capacity.
fn list_anew<T: Grouped, A: Allocator>(table: &mut Vec<T, A>, rows: &[Row])
    requires { length rows.now ≤ vec_capacity table.old }
    ensures items { table.new.items ≡ filter_map T.in_row rows.now }
    ensures capacity { vec_capacity table.old ≤ vec_capacity table.new }
{
    table.clear();
    let mut rest = rows;
    while let Some((row, later)) = rest.split_first() {
        if let Some(one) = T::in_row(row) {
            table.push_reserved(one);
        }
        rest = later;
    }
}

/// Makes the table of these rows anew, within its capacity.
fn regroup<T: Grouped, A: Allocator>(table: &mut Vec<T, A>, rows: &[Row])
    requires { length rows.now ≤ vec_capacity table.old }
    ensures table { IsTableOf T.in_row T.group T.turn rows.now table.new.items }
    ensures capacity { vec_capacity table.old ≤ vec_capacity table.new }
{
    list_anew(table, rows);
    table.sort_unstable_by_key(|one| (one.group(), one.turn()));
}

/// Lists the members by room and then by number, within the table's capacity.
pub(crate) fn list_by_room<A: Allocator>(table: &mut Vec<Member, A>, members: &[Member])
    requires { length members.now ≤ vec_capacity table.old }
    ensures table { IsByRoom members.now table.new.items }
    ensures capacity { vec_capacity table.old ≤ vec_capacity table.new }
{
    table.clear();
    if table.extend_from_slice(members).is_err() {
        return;
    }
    table.sort_unstable_by_key(|member| (member.room, member.member));
}

/// Whether there is none of the kind.
fn has_none(rows: &[Row], kind: Kind) -> bool
    requires { in_order rows.now ≡ true }
    ensures { result ≡ nat_eq (length (filter (is_of kind) rows.now)) 0 }
{
    rows_of_kind(rows, kind).is_empty()
}

/// Whether the edit leaves all rows of the kind.
fn leaves(edit: &EditLists<'_>, kind: Kind) -> bool
    requires { HasOrders edit.now }
    ensures { result
        ≡ nat_eq (length (filter (is_of kind) edit.now.taken.others)
        + length (filter (is_of kind) edit.now.replaced.old)
        + (length (filter (is_of kind) edit.now.put.others) + length (filter (is_of kind) edit.now.replaced.new))) 0 }
{
    (has_none(edit.taken_others(), kind) && has_none(edit.old(), kind))
        && (has_none(edit.put_others(), kind) && has_none(edit.new(), kind))
}

/// The place of an entry that the table has. Those of one group and turn stand together.
fn find_entry<T: Grouped>(table: &[T], one: &T) -> usize
    requires order { stand_by (in_turn T.group T.turn) table.now ≡ true }
    requires there { 1 ≤ count_by (λ x. same_row (T.as_row x) (T.as_row one.now)) table.now }
    ensures bound { result < length table.now }
    ensures entry { slice_index_or table.now result one.now ≡ one.now }
{
    let mut place = table.partition_point(|other| precedes(other, one));
    while !is_same(&table[place], one) {
        place += 1;
    }
    place
}

/// Takes out an entry that the table has.
fn take_entry<T: Grouped, A: Allocator>(table: &mut Vec<T, A>, one: &T)
    requires order { stand_by (in_turn T.group T.turn) table.old.items ≡ true }
    requires there { 1 ≤ count_by (λ x. same_row (T.as_row x) (T.as_row one.now)) table.old.items }
    ensures order { stand_by (in_turn T.group T.turn) table.new.items ≡ true }
    ensures taken { (p : T → Bool) → count_by p table.new.items + cond (p one.now) 1 0 ≡ count_by p table.old.items }
    ensures capacity { vec_capacity table.old ≤ vec_capacity table.new }
{
    let place = find_entry(table, one);
    table.remove(place);
}

/// Puts the entry in. The tables have the capacity.
fn put_entry<T: Grouped, A: Allocator>(table: &mut Vec<T, A>, one: &T)
    requires order { stand_by (in_turn T.group T.turn) table.old.items ≡ true }
    requires capacity { vec_len table.old + 1 ≤ vec_capacity table.old }
    ensures order { stand_by (in_turn T.group T.turn) table.new.items ≡ true }
    ensures put { (p : T → Bool) → count_by p table.new.items ≡ count_by p table.old.items + cond (p one.now) 1 0 }
    ensures len { vec_len table.new ≡ vec_len table.old + 1 }
    ensures capacity { vec_capacity table.old ≤ vec_capacity table.new }
{
    let place = table.partition_point(|other| !precedes(one, other));
    if table.insert(place, *one).is_err() {
        return;
    }
}

/// Takes out the entries of these rows. The table has them all.
fn take_each<T: Grouped, A: Allocator>(table: &mut Vec<T, A>, rows: &[Row])
    requires order { stand_by (in_turn T.group T.turn) table.old.items ≡ true }
    requires there { (p : T → Bool) → count_by (passes_in T.in_row p) rows.now ≤ count_by p table.old.items }
    ensures order { stand_by (in_turn T.group T.turn) table.new.items ≡ true }
    ensures taken { (p : T → Bool)
        → count_by p table.new.items + count_by (passes_in T.in_row p) rows.now ≡ count_by p table.old.items }
    ensures capacity { vec_capacity table.old ≤ vec_capacity table.new }
{
    let mut rest = rows;
    while let Some((row, later)) = rest.split_first() {
        if let Some(one) = T::in_row(row) {
            take_entry(table, &one);
        }
        rest = later;
    }
}

/// Puts in the entries of these rows. The tables have the capacity.
fn put_each<T: Grouped, A: Allocator>(table: &mut Vec<T, A>, rows: &[Row])
    requires order { stand_by (in_turn T.group T.turn) table.old.items ≡ true }
    requires capacity { vec_len table.old + count_by (passes_in T.in_row (λ x. true)) rows.now
        ≤ vec_capacity table.old }
    ensures order { stand_by (in_turn T.group T.turn) table.new.items ≡ true }
    ensures put { (p : T → Bool)
        → count_by p table.new.items ≡ count_by p table.old.items + count_by (passes_in T.in_row p) rows.now }
    ensures capacity { vec_capacity table.old ≤ vec_capacity table.new }
{
    let mut rest = rows;
    while let Some((row, later)) = rest.split_first() {
        if let Some(one) = T::in_row(row) {
            put_entry(table, &one);
        }
        rest = later;
    }
}

/// Exchanges the entries of the rows that go for those of the rows that come, one by one. The table has the former, and
/// the capacity for the latter.
fn exchange_each<T: Grouped, A: Allocator>(
    table: &mut Vec<T, A>,
    taken: &[Row],
    old: &[Row],
    put: &[Row],
    new: &[Row],
)
    requires order { stand_by (in_turn T.group T.turn) table.old.items ≡ true }
    requires there { (p : T → Bool)
        → count_by (passes_in T.in_row p) taken.now + count_by (passes_in T.in_row p) old.now
        ≤ count_by p table.old.items }
    requires capacity { count_by (λ x. true) table.old.items
        + (count_by (passes_in T.in_row (λ x. true)) put.now + count_by (passes_in T.in_row (λ x. true)) new.now)
        ≤ vec_capacity table.old
        + (count_by (passes_in T.in_row (λ x. true)) taken.now + count_by (passes_in T.in_row (λ x. true)) old.now) }
    ensures order { stand_by (in_turn T.group T.turn) table.new.items ≡ true }
    ensures same { (p : T → Bool)
        → count_by p table.new.items
        + (count_by (passes_in T.in_row p) taken.now + count_by (passes_in T.in_row p) old.now)
        ≡ count_by p table.old.items
        + (count_by (passes_in T.in_row p) put.now + count_by (passes_in T.in_row p) new.now) }
    ensures capacity { vec_capacity table.old ≤ vec_capacity table.new }
{
    take_each(table, taken);
    take_each(table, old);
    put_each(table, put);
    put_each(table, new);
}

/// The rows of the kind.
fn rows_in<T: Grouped>(rows: &[Row]) -> &[Row]
    requires { in_order rows.now ≡ true }
    ensures few { length result.now ≡ length (filter (is_of T.kind) rows.now) }
    ensures same { (p : T → Bool)
        → count_by (passes_in T.in_row p) result.now ≡ count_by (passes_in T.in_row p) rows.now }
{
    rows_of_kind(rows, T::kind())
}

/// The most rows of each list of an edit for which a table is changed entry by entry. Each entry moves all behind it,
/// so for more rows sorting the table anew costs less.
const FEW: usize = 32;

/// Turns the table of the rows before an edit into that of the rows after it.
pub(crate) fn follow<T: Grouped, A: Allocator + Copy>(
    table: &mut Vec<T, A>,
    others: &[Row],
    edit: &EditLists<'_>,
)
    requires order { stand_by (in_turn T.group T.turn) table.old.items ≡ true }
    requires rows { in_order others.now ≡ true }
    requires orders { HasOrders edit.now }
    requires there { (p : T → Bool)
        → count_by (passes_in T.in_row p) edit.now.taken.others + count_by (passes_in T.in_row p) edit.now.replaced.old
        ≤ count_by p table.old.items }
    requires before { (p : T → Bool)
        → count_by p table.old.items
        + (count_by (passes_in T.in_row p) edit.now.put.others + count_by (passes_in T.in_row p) edit.now.replaced.new)
        ≡ count_by (passes_in T.in_row p) others.now
        + (count_by (passes_in T.in_row p) edit.now.taken.others
        + count_by (passes_in T.in_row p) edit.now.replaced.old) }
    requires capacity { length (filter (is_of T.kind) others.now) ≤ vec_capacity table.old }
    ensures table { IsTableOf T.in_row T.group T.turn others.now table.new.items }
    ensures capacity { vec_capacity table.old ≤ vec_capacity table.new }
{
    if leaves(edit, T::kind()) {
        return;
    }
    let taken = rows_in::<T>(edit.taken_others());
    let old = rows_in::<T>(edit.old());
    let put = rows_in::<T>(edit.put_others());
    let new = rows_in::<T>(edit.new());
    if taken.len() > FEW || old.len() > FEW || put.len() > FEW || new.len() > FEW {
        regroup(table, rows_in::<T>(others));
        return;
    }
    exchange_each(table, taken, old, put, new);
}
