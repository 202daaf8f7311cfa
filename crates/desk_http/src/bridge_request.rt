//! A line that was sent to the bridge, and its reply so far.

ghost use Rattle.std.specs.Prelude.{◌≡◌, ◌+◌, ◌++◌, ◌∷◌, [], ◌≤◌, length, IfOk, OnOk, OnErr, option_map};
ghost use Rattle.std.specs.List.{suffix_len};
ghost use Rattle.desk_http.specs.BridgeRequests.{
  is_not_lf,
  before_last_lf,
  has_lf,
  last_line,
  has_end_line,
  has_plain_end,
  is_fault,
  progress_of,
  call_progress,
  query_progress,
  listing_progress,
};

use crate::query::{is_calls, is_query, is_stats};
use std::alloc::{AllocError, Global};

/// The most octets of a reply: 16 MiB, six times the rows of a full desk.
const MAX_REPLY: usize = 16_777_216;

/// How much of a reply has come.
#[derive(Clone, Copy)]
pub enum ReplyProgress {
    /// Part of it, or nothing yet.
    Partial,
    /// All of it, and nothing more.
    Complete,
    /// The bridge has no free seat, and hasn't taken the line.
    Busy,
    /// Octets that are no reply.
    Malformed,
}

/// A line that was sent to the bridge, and the octets of its reply so far. No other line is sent meanwhile.
#[derive(Drop)]
pub struct BridgeRequest {
    /// The line, without its LF.
    pub line: Vec<u8>,
    /// All octets that have come since it was sent.
    pub received: Vec<u8>,
}

/// The text without the LF at its end, if it has one there.
pub(crate) fn before_last_lf(text: &[u8]) -> Option<&[u8]>
    ensures { option_map (λ x. x.now) result ≡ before_last_lf text.now }
{
    let length = text.len();
    if length > 0 && text[length - 1] == b'\n' {
        Some(&text[..length - 1])
    } else {
        None
    }
}

/// Where the text after the last LF begins.
fn last_line_start(text: &[u8]) -> usize
    ensures value { result + suffix_len is_not_lf text.now ≡ length text.now }
    ensures within { result ≤ length text.now }
{
    let mut start = text.len();
    while start > 0 && text[start - 1] != b'\n' {
        start -= 1;
    }
    start
}

/// The text after the last LF.
pub(crate) fn last_line(text: &[u8]) -> &[u8]
    ensures { result.now ≡ last_line text.now }
{
    &text[last_line_start(text)..]
}

/// Whether the last line of a text begins with `end `.
fn has_end_line(text: &[u8]) -> bool
    ensures { result ≡ has_end_line text.now }
{
    let line = &text[last_line_start(text)..];
    line.len() >= 4 && &line[..4] == b"end ".as_slice()
}

fn has_lf(text: &[u8]) -> bool
    ensures { result ≡ has_lf text.now }
{
    text.iter().any(|octet| *octet == b'\n')
}

/// The progress of a reply to a query, which ends with the line `end VERSION`.
fn query_progress(received: &[u8]) -> ReplyProgress
    ensures { result ≡ query_progress (before_last_lf received.now) }
{
    match before_last_lf(received) {
        Some(text) => {
            if has_end_line(text) {
                ReplyProgress::Complete
            } else {
                ReplyProgress::Partial
            }
        }
        None => ReplyProgress::Partial,
    }
}

/// Whether the last line of a text is `end`.
fn has_plain_end(text: &[u8]) -> bool
    ensures { result ≡ has_plain_end text.now }
{
    &text[last_line_start(text)..] == b"end".as_slice()
}

/// Whether a text begins as the answer to a faulty line.
pub(crate) fn is_fault(text: &[u8]) -> bool
    ensures { result ≡ is_fault text.now }
{
    text.len() >= 6 && &text[..6] == b"fault ".as_slice()
}

/// The progress of a reply to `stats` or `calls`, which ends with a line `end`. A bridge that doesn't know the question
/// answers by one line, a fault.
fn listing_progress(received: &[u8]) -> ReplyProgress
    ensures { result ≡ listing_progress (before_last_lf received.now) }
{
    match before_last_lf(received) {
        Some(text) => {
            if has_plain_end(text) || has_end_line(text) || is_fault(text) {
                ReplyProgress::Complete
            } else {
                ReplyProgress::Partial
            }
        }
        None => ReplyProgress::Partial,
    }
}

/// The progress of a reply to a call, which is one line.
fn call_progress(received: &[u8]) -> ReplyProgress
    ensures { result ≡ call_progress received.now (before_last_lf received.now) }
{
    match before_last_lf(received) {
        Some(text) => {
            if has_lf(text) {
                ReplyProgress::Malformed
            } else {
                ReplyProgress::Complete
            }
        }
        None => {
            if has_lf(received) {
                ReplyProgress::Malformed
            } else {
                ReplyProgress::Partial
            }
        }
    }
}

impl BridgeRequest {
    /// A request with this line, which has no LF.
    pub fn new(alloc: Global, line: Vec<u8>) -> Self
        ensures line { result.line ≡ line }
        ensures received { result.received.items ≡ [] }
    {
        Self {
            line,
            received: Vec::new(alloc),
        }
    }

    /// The progress by what has come so far.
    pub fn progress(&self) -> ReplyProgress
        ensures { result ≡ progress_of self.now.line.items self.now.received.items }
    {
        if self.received.as_slice() == b"busy\n".as_slice() {
            ReplyProgress::Busy
        } else if self.received.len() > MAX_REPLY {
            ReplyProgress::Malformed
        } else if is_stats(&self.line) || is_calls(&self.line) {
            listing_progress(&self.received)
        } else if is_query(&self.line) {
            query_progress(&self.received)
        } else {
            call_progress(&self.received)
        }
    }

    /// Takes in more octets of the reply. On out of memory, the only error, nothing changes.
    pub fn feed(&mut self, octets: &[u8]) -> Result<ReplyProgress, AllocError>
        ensures progress { IfOk result (λ p. p ≡ progress_of self.new.line.items self.new.received.items) }
        ensures received { OnOk result (self.new.received.items ≡ self.old.received.items ++ octets.now) }
        ensures err { OnErr result (self.new.received.items ≡ self.old.received.items) }
        ensures line { self.new.line ≡ self.old.line }
    {
        self.received.extend_from_slice(octets)?;
        Ok(self.progress())
    }

    /// The octets to send: the line and an LF.
    pub fn encode(&self, alloc: Global) -> Result<Vec<u8>, AllocError>
        ensures { IfOk result (λ sent. sent.items ≡ self.now.line.items ++ 10 ∷ []) }
    {
        let mut octets = Vec::from_slice(alloc, &self.line)?;
        octets.push(b'\n')?;
        Ok(octets)
    }
}
