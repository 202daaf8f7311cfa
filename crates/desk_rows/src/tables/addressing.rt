//! Finds members by their addresses.

ghost use Rattle.std.specs.Prelude.{◌≡◌, ◌≤◌, true, false, length, Contains, IfSome, IfNone, vec_capacity};
ghost use Rattle.std.specs.List.{list_any};
ghost use Rattle.rtp_codec.specs.Address.{same_address};
ghost use Rattle.desk_rows.specs.inner.tables.Addressed.{StandByAddress, IsByAddress};

use crate::row::Member;
use rtp_codec::Address;
use std::alloc::Allocator;

/// The member at this address, by binary search.
pub(crate) fn find_at(table: &[Member], address: &Address) -> Option<Member>
    requires { StandByAddress table.now }
    ensures there { IfSome result (Contains table.now) }
    ensures at { IfSome result (λ m. same_address m.address address.now ≡ true) }
    ensures none { IfNone result (list_any (λ m. same_address m.address address.now) table.now ≡ false) }
{
    let wanted = (address.ip, address.port);
    match table.binary_search_by_key(&wanted, |member| (member.address.ip, member.address.port)) {
        Ok(place) => Some(table[place]),
        Err(_) => None,
    }
}

/// Lists the members by address, within the table's capacity.
pub(crate) fn list_by_address<A: Allocator>(table: &mut Vec<Member, A>, members: &[Member])
    requires { length members.now ≤ vec_capacity table.old }
    ensures table { IsByAddress members.now table.new.items }
    ensures capacity { vec_capacity table.old ≤ vec_capacity table.new }
{
    table.clear();
    if table.extend_from_slice(members).is_err() {
        return;
    }
    table.sort_unstable_by_key(|member| (member.address.ip, member.address.port));
}
