//! The inputs and the contributors of a room without a member's own.

ghost use Rattle.std.specs.Prelude.{◌≡◌, ℕ, ◌<◌, ◌≤◌, ◌+◌, ◌*◌, ◌++◌, List, [], length, map, take, IfOk};
ghost use Rattle.rtp_codec.specs.Packet.{number_octets, most_csrcs};
ghost use Rattle.mix_minus.specs.Mix.{own_of, others_of, present_in};
ghost use Rattle.mixer.specs.inner.Counted.{member_of, AreBefore};
ghost use Rattle.mixer.specs.inner.Named.{IsNamed};

use forward_rewrite::Named;
use mix_minus::Input;
use std::alloc::{AllocError, Allocator};

/// The most contributors that a packet names (RFC 3550 section 5.1).
pub const MOST_NAMED: usize = 15;

/// The octets of an SSRC.
pub const SSRC_OCTETS: usize = 4;

/// The number of inputs from the first one on that are a member's own.
pub fn own_in_front(inputs: &[Input], member: u32) -> usize
    ensures within { result ≤ length inputs.now }
    ensures own { own_of member (take result inputs.now) ≡ take result inputs.now }
    ensures others { others_of member (take result inputs.now) ≡ [] }
{
    for i in 0..inputs.len() {
        if inputs[i].member != member {
            return i;
        }
    }
    inputs.len()
}

/// The member of each input.
pub fn members_of<A: Allocator + Copy>(
    alloc: A,
    inputs: &[Input],
) -> Result<Vec<u32, A>, AllocError>
    ensures { IfOk result (λ v. v.items ≡ map member_of inputs.now) }
{
    inputs.iter().map(|input| input.member).collect(alloc)
}

/// The number of inputs that are a member's own. `members` has the member of each input.
pub fn own_count(members: &[u32], member: u32) -> u32
    requires { length members.now ≤ 64 }
    ensures { (inputs : List Input) → members.now ≡ map member_of inputs → result ≡ length (own_of member inputs) }
{
    let mut count = 0;
    for i in 0..members.len() {
        count += (members[i] == member) as u32;
    }
    count
}

/// Where a member's own inputs probably begin: at the place `near`, or else at the first one. `members` has the member
/// of each input.
pub fn own_start(members: &[u32], member: u32, near: usize) -> usize
    ensures { result ≤ length members.now }
{
    if near < members.len() && members[near] == member {
        return near;
    }
    for i in 0..members.len() {
        if members[i] == member {
            return i;
        }
    }
    members.len()
}

/// The number of inputs before each place of which a sample is present. The last number is that of all.
pub fn counts_before<A: Allocator + Copy>(
    alloc: A,
    inputs: &[Input],
) -> Result<Vec<u32, A>, AllocError>
    requires { length inputs.now ≤ 64 }
    ensures { IfOk result (λ v. AreBefore v.items inputs.now) }
{
    let mut counts = Vec::with_capacity(alloc, inputs.len() + 1)?;
    let mut count = 0;
    counts.push(count)?;
    for i in 0..inputs.len() {
        count += (inputs[i].filled > 0) as u32;
        counts.push(count)?;
    }
    Ok(counts)
}

/// The SSRCs of the inputs of which a sample is present, in network order.
pub fn named_of<A: Allocator + Copy>(alloc: A, inputs: &[Input]) -> Result<Vec<u8, A>, AllocError>
    ensures { IfOk result (λ v. v.items ≡ number_octets (present_in inputs.now)) }
{
    let mut named = Vec::new(alloc);
    for i in 0..inputs.len() {
        if inputs[i].filled > 0 {
            named.extend_from_slice(&inputs[i].ssrc.to_be_bytes())?;
        }
    }
    Ok(named)
}

/// The first 15 of these SSRCs, in network order, without those in the middle. `before` of them stand before it, and
/// `without` in it.
pub fn named_without(octets: &[u8], before: usize, without: usize) -> Named<'_>
    requires { 4 * before + 4 * without ≤ length octets.now }
    ensures count { result.count ≤ most_csrcs }
    ensures named { (front own back : List ℕ) → octets.now ≡ number_octets (front ++ (own ++ back))
        → length front ≡ before → length own ≡ without → IsNamed result (take most_csrcs (front ++ back)) }
{
    let (front, rest) = octets.split_at(SSRC_OCTETS * before);
    let (_, back) = rest.split_at(SSRC_OCTETS * without);
    let first = before.min(MOST_NAMED);
    let second = (back.len() / SSRC_OCTETS).min(MOST_NAMED - first);
    Named {
        count: (first + second) as u8,
        front: &front[..SSRC_OCTETS * first],
        back: &back[..SSRC_OCTETS * second],
    }
}
