//! Rows of tokens that show one log.

ghost use Rattle.std.specs.Prelude.{◌≡◌, ◌≢◌, ◌≤◌, ◌<◌, length, take, drop, vec_len, vec_capacity, IfOk};
ghost use Rattle.std.specs.Bool.{OnTrue, OnFalse};
ghost use Rattle.operator_desk.specs.OwnCalls.{numbers};
ghost use Rattle.operator_desk.specs.PastCalls.{made_of, stamped_of};
ghost use Rattle.operator_desk.specs.inner.Tokens.{marks, shown, AreFirst};

use crate::entry::LogEntry;
use crate::log::Log;
use call_history::{AcceptedCall, StampedCall};
use std::alloc::{AllocError, Global};
use std::sync::OnceToken;

/// Tokens of the same cells show the same.
pub fn agree<'a>(
    log: &'a Log,
    fewer: &Vec<OnceToken<'a, LogEntry>>,
    more: &Vec<OnceToken<'a, LogEntry>>,
)
    requires fewer { AreFirst log.now fewer.now.items }
    requires more { AreFirst log.now more.now.items }
    requires few { vec_len fewer.now ≤ vec_len more.now }
    ensures { shown fewer.now.items ≡ take (vec_len fewer.now) (shown more.now.items) }
{
    for k in 0..fewer.len() {
        fewer[k].agrees(&more[k]);
    }
}

/// Whether none of the later entries is the operator's.
pub fn none_of<'a>(
    log: &'a Log,
    entries: &Vec<OnceToken<'a, LogEntry>>,
    from: usize,
    op: u32,
) -> bool
    requires entries { AreFirst log.now entries.now.items }
    requires from { from ≤ vec_len entries.now }
    ensures none { OnTrue result
        (numbers op (shown entries.now.items) ≡ numbers op (take from (shown entries.now.items))) }
    ensures some { OnFalse result
        (numbers op (shown entries.now.items) ≢ numbers op (take from (shown entries.now.items))) }
{
    for k in from..entries.len() {
        if log.read(k, &entries[k]).op() == op {
            return false;
        }
    }
    true
}

/// Adds tokens of the later entries.
pub fn catch_up<'a>(seen: &mut Vec<OnceToken<'a, LogEntry>>, entries: &Vec<OnceToken<'a, LogEntry>>)
    requires few { vec_len seen.old ≤ vec_len entries.now }
    requires capacity { vec_len entries.now ≤ vec_capacity seen.old }
    requires marks { marks seen.old.items ≡ take (vec_len seen.old) (marks entries.now.items) }
    requires shown { shown seen.old.items ≡ take (vec_len seen.old) (shown entries.now.items) }
    ensures marks { marks seen.new.items ≡ marks entries.now.items }
    ensures shown { shown seen.new.items ≡ shown entries.now.items }
    ensures length { vec_len seen.new ≡ vec_len entries.now }
    ensures capacity { vec_capacity seen.new ≡ vec_capacity seen.old }
{
    for k in seen.len()..entries.len() {
        seen.push_reserved(entries[k].again());
    }
}

/// Copies of the entries that these tokens show.
pub fn copied<'a>(
    alloc: Global,
    log: &'a Log,
    entries: &Vec<OnceToken<'a, LogEntry>>,
) -> Result<Vec<LogEntry>, AllocError>
    requires entries { AreFirst log.now entries.now.items }
    ensures { IfOk result (λ copies. copies.items ≡ shown entries.now.items) }
{
    let mut copies = Vec::with_capacity(alloc, entries.len())?;
    for k in 0..entries.len() {
        copies.push_reserved(log.read(k, &entries[k]).copy(alloc)?);
    }
    Ok(copies)
}

/// The accepted calls that these tokens show, but for so many first ones.
pub fn accepted_after<'a>(
    alloc: Global,
    log: &'a Log,
    entries: &Vec<OnceToken<'a, LogEntry>>,
    version: usize,
) -> Result<Vec<AcceptedCall<'a>>, AllocError>
    requires entries { AreFirst log.now entries.now.items }
    ensures { IfOk result (λ calls. calls.items ≡ drop version (made_of (shown entries.now.items))) }
{
    let mut calls = Vec::new(alloc);
    for k in version..entries.len() {
        calls.push(log.read(k, &entries[k]).accepted(k as u64 + 1))?;
    }
    Ok(calls)
}

/// The accepted calls that these tokens show, with their stamps, but for so many first ones.
pub fn stamped_after<'a>(
    alloc: Global,
    log: &'a Log,
    entries: &Vec<OnceToken<'a, LogEntry>>,
    version: usize,
) -> Result<Vec<StampedCall<'a>>, AllocError>
    requires entries { AreFirst log.now entries.now.items }
    ensures { IfOk result (λ calls. calls.items ≡ drop version (stamped_of (shown entries.now.items))) }
{
    let mut calls = Vec::new(alloc);
    for k in version..entries.len() {
        calls.push(log.read(k, &entries[k]).stamped(k as u64 + 1))?;
    }
    Ok(calls)
}
