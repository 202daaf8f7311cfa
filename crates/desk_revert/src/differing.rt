//! The one edit that leads from the rows of a desk to those of another.

ghost use Rattle.std.specs.Prelude.{◌≡◌, ◌+◌, ◌-◌, ◌≤◌, ◌<◌, ◌^◌, true, IfOk, length, take, drop};
ghost use Rattle.desk_rows.specs.Exchange.{fits, after};
ghost use Rattle.desk_rows.specs.Order.{in_order, without_rows};
ghost use Rattle.desk_revert.specs.Spans.{Exchanges, placed_from};

use desk_rows::{Edit, Member, Part, Placed, Replaced, Row, Rows};
use std::alloc::{AllocError, Allocator};

fn is_same(a: &Member, b: &Member) -> bool
    ensures { result ≡ true → a.now ≡ b.now }
{
    Row::Member(*a).is_same(&Row::Member(*b))
}

/// How many members both lists begin with.
fn same_front(before: &[Member], behind: &[Member]) -> usize
    ensures within { (result ≤ length before.now) × (result ≤ length behind.now) }
    ensures same { take result before.now ≡ take result behind.now }
{
    let mut count = 0;
    while count < before.len() && count < behind.len() && is_same(&before[count], &behind[count]) {
        count += 1;
    }
    count
}

/// How many members both lists end with.
fn same_back(before: &[Member], behind: &[Member]) -> usize
    ensures within { (result ≤ length before.now) × (result ≤ length behind.now) }
    ensures same { drop (length before.now - result) before.now ≡ drop (length behind.now - result) behind.now }
{
    let mut count = 0;
    while count < before.len()
        && count < behind.len()
        && is_same(
            &before[before.len() - count - 1],
            &behind[behind.len() - count - 1],
        )
    {
        count += 1;
    }
    count
}

/// The members with their places, of which the first is this one.
fn placed<A: Allocator>(
    alloc: A,
    first: usize,
    members: &[Member],
) -> Result<Vec<Placed, A>, AllocError>
    requires { first + length members.now < 2 ^ 62 }
    ensures { IfOk result (λ list. list.items ≡ placed_from first members.now) }
{
    let mut list = Vec::with_capacity(alloc, members.len())?;
    let mut place = first;
    let mut rest = members;
    while let Some((member, later)) = rest.split_first() {
        list.push(Placed {
            place,
            row: *member,
        })?;
        place += 1;
        rest = later;
    }
    Ok(list)
}

/// The members that go and those that come, with their places.
fn spans<A: Allocator + Copy>(
    alloc: A,
    before: &[Member],
    behind: &[Member],
) -> Result<(Vec<Placed, A>, Vec<Placed, A>), AllocError>
    requires { (length before.now < 2 ^ 62) × (length behind.now < 2 ^ 62) }
    ensures { IfOk result (λ spans. Exchanges before.now behind.now spans.0.items spans.1.items) }
{
    let front = same_front(before, behind);
    let (_, gone) = before.split_at(front);
    let (_, come) = behind.split_at(front);
    let back = same_back(gone, come);
    let (gone, _) = gone.split_at(gone.len() - back);
    let (come, _) = come.split_at(come.len() - back);
    Ok((placed(alloc, front, gone)?, placed(alloc, front, come)?))
}

/// The rows of the first list that aren't in the second, and those of the second that aren't in the first.
fn apart<A: Allocator + Copy>(
    alloc: A,
    before: &[Row],
    behind: &[Row],
) -> Result<(Vec<Row, A>, Vec<Row, A>), AllocError>
    requires before { in_order before.now ≡ true }
    requires behind { in_order behind.now ≡ true }
    ensures gone { IfOk result (λ lists. lists.0.items ≡ without_rows behind.now before.now) }
    ensures come { IfOk result (λ lists. lists.1.items ≡ without_rows before.now behind.now) }
{
    let mut gone = Vec::new(alloc);
    let mut come = Vec::new(alloc);
    let (mut olds, mut news) = (before, behind);
    while let Some((old, old_later)) = olds.split_first() {
        match news.split_first() {
            None => {
                gone.push(*old)?;
                olds = old_later;
            }
            Some((new, new_later)) => {
                if old.is_same(new) {
                    olds = old_later;
                    news = new_later;
                } else if new.precedes(old) {
                    come.push(*new)?;
                    news = new_later;
                } else {
                    gone.push(*old)?;
                    olds = old_later;
                }
            }
        }
    }
    come.extend_from_slice(news)?;
    Ok((gone, come))
}

/// The edit that leads from these rows to those behind. It takes the rows that are in the first desk alone, and puts
/// those that are in the second alone. The only error is out of memory.
// Of the members it exchanges the span between those that both lists begin with and those that both end with. So a list
// of many edits, there and back, is one edit, which a history keeps and lanes absorb.
pub fn difference<A: Allocator + Copy>(
    alloc: A,
    before: &Rows<A>,
    behind: &Rows<A>,
) -> Result<Edit<A>, AllocError>
    requires { behind.now.bridge_ssrc ≡ before.now.bridge_ssrc }
    ensures fits { IfOk result (λ edit. fits before.now edit ≡ true) }
    ensures leads { IfOk result (λ edit. after before.now edit ≡ behind.now) }
    ensures members { IfOk result (λ edit.
        Exchanges before.now.members behind.now.members edit.taken.members edit.put.members) }
    ensures gone { IfOk result (λ edit. edit.taken.others ≡ without_rows behind.now.others before.now.others) }
    ensures come { IfOk result (λ edit. edit.put.others ≡ without_rows before.now.others behind.now.others) }
{
    let (gone, come) = spans(alloc, before.members(), behind.members())?;
    let (taken, put) = apart(alloc, before.others(), behind.others())?;
    Ok(Edit {
        taken: Part::new(gone, taken),
        put: Part::new(come, put),
        replaced: Replaced::none(alloc),
    })
}
