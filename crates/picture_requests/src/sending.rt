//! Requests that were sent.

ghost use Rattle.std.specs.Prelude.{◌≡◌, ◌≤◌, ◌+◌, IfOk, filter, map, vec_capacity, vec_len};
ghost use Rattle.picture_requests.specs.Requests.{is_recent, asked_lately, may_be_asked, request_gap};

use crate::collecting::set_of;
use crate::source::VideoSource;
use std::alloc::{AllocError, Allocator};

/// The least time between two requests to a source, in nanoseconds: half a second.
const REQUEST_GAP: u64 = 500_000_000;

/// A request that was sent.
#[derive(Clone, Copy)]
pub(crate) struct SentRequest {
    /// The source that was asked.
    pub(crate) source: VideoSource,
    /// When it was asked, in nanoseconds since 1970.
    pub(crate) moment: u64,
}

/// Whether a request was sent less than half a second from this moment.
fn is_recent(moment: u64, request: &SentRequest) -> bool
    ensures { result ≡ is_recent moment request.now }
{
    moment.saturating_sub(request.moment) < REQUEST_GAP
        && request.moment.saturating_sub(moment) < REQUEST_GAP
}

/// The requests that were sent less than half a second from this moment.
fn recent<A: Allocator + Copy>(
    alloc: A,
    moment: u64,
    sent: &[SentRequest],
) -> Result<Vec<SentRequest, A>, AllocError>
    ensures { IfOk result (λ v. v.items ≡ filter (is_recent moment) sent.now) }
{
    sent.iter()
        .filter(|request| is_recent(moment, request))
        .copied()
        .collect(alloc)
}

/// The same, with capacity for so many more.
pub(crate) fn recent_and<A: Allocator + Copy>(
    alloc: A,
    moment: u64,
    sent: &[SentRequest],
    more: usize,
) -> Result<Vec<SentRequest, A>, AllocError>
    ensures items { IfOk result (λ v. v.items ≡ filter (is_recent moment) sent.now) }
    ensures capacity { IfOk result (λ v. vec_len v + more ≤ vec_capacity v) }
{
    let mut all = recent(alloc, moment, sent)?;
    all.reserve(more)?;
    Ok(all)
}

/// The sources that were asked less than half a second from this moment.
fn asked_lately<A: Allocator + Copy>(
    alloc: A,
    moment: u64,
    sent: &[SentRequest],
) -> Result<Vec<VideoSource, A>, AllocError>
    ensures { IfOk result (λ v. v.items ≡ asked_lately moment sent.now) }
{
    sent.iter()
        .filter(|request| is_recent(moment, request))
        .map(|request| request.source)
        .collect(alloc)
}

/// Those of the waiting sources that were not asked less than half a second from this moment.
pub(crate) fn may_be_asked<A: Allocator + Copy>(
    alloc: A,
    moment: u64,
    sent: &[SentRequest],
    waiting: &[VideoSource],
) -> Result<Vec<VideoSource, A>, AllocError>
    ensures { IfOk result (λ v. v.items ≡ may_be_asked moment sent.now waiting.now) }
{
    let lately = asked_lately(alloc, moment, sent)?;
    let asked = set_of(alloc, &lately)?;
    waiting
        .iter()
        .filter(|source| !asked.contains(*source))
        .copied()
        .collect(alloc)
}
