//! Following the desk for all browsers with the stream of events: what the bridge is asked, and what they are told.
//!
//! A short question finds out whether anything was changed. Only then the desk and the log are asked for, once for all
//! browsers. So ten browsers cost the bridge no more than one. A log that is asked for behind the desk has all of its
//! calls, so that calls are told before the desk that they made.

use desk_http::{
    BridgeReply, DeskTexts, Query, answer_lines, append_event, closed_by, edit_between,
    known_lines, latest_line, lease_line,
};
use std::alloc::{AllocError, Global};

/// How many milliseconds are between two looks at the newest call.
const LOOK_INTERVAL: u64 = 100;
/// How many milliseconds are between two questions for the lease of the desk.
const LEASE_INTERVAL: u64 = 1_000;
/// How many milliseconds are between two beats, by which a browser knows that its stream is alive.
const BEAT_INTERVAL: u64 = 2_000;

/// What the browsers know of the bridge.
#[derive(Clone, Copy, PartialEq, Eq)]
pub(crate) enum BridgeState {
    /// It has answered.
    There,
    /// It isn't there, or says nothing.
    Gone,
    /// All of its seats are taken.
    Busy,
}

impl BridgeState {
    /// What a reply says of the bridge.
    pub(crate) fn by(reply: &BridgeReply) -> Self {
        match reply {
            BridgeReply::Text(_)
            | BridgeReply::Full
            | BridgeReply::Newer(_)
            | BridgeReply::Missing => BridgeState::There,
            BridgeReply::Gone | BridgeReply::Lost => BridgeState::Gone,
            BridgeReply::Busy => BridgeState::Busy,
        }
    }

    fn word(self) -> &'static [u8] {
        match self {
            BridgeState::There => b"anew",
            BridgeState::Gone => b"gone",
            BridgeState::Busy => b"busy",
        }
    }
}

/// What is known of the desk, and what is to be asked.
#[derive(Drop)]
pub(crate) struct Follow {
    /// When the newest call is asked for, when the lease is, and when the next beat is due.
    next_look: u64,
    next_lease: u64,
    next_beat: u64,
    /// The answer to that question.
    newest: Vec<u8>,
    /// The last calls of the log, and whether they have come just now: nothing was sent to the bridge since.
    log: Vec<u8>,
    pub(crate) has_log: bool,
    /// Calls were accepted since the desk, or since the log.
    wants_desk: bool,
    wants_log: bool,
    state: BridgeState,
    /// Who held the lease of the desk, where it has ended.
    closed: Option<Vec<u8>>,
    /// What became of the desk since the log.
    edits: Vec<u8>,
    /// The events that no browser has yet.
    pub(crate) events: Vec<u8>,
}

/// The last call of a log, or an empty text.
fn last_call<'a>(lines: &[&'a str]) -> &'a str {
    let mut last = "";
    for line in lines {
        if line.starts_with("call ") {
            last = line;
        }
    }
    last
}

/// Appends an event for each line of the log behind the last call of the log before. The first log tells nothing new.
fn append_calls(
    alloc: Global,
    before: &str,
    after: &str,
    out: &mut Vec<u8>,
) -> Result<(), AllocError> {
    let known = answer_lines(alloc, before)?;
    let lines = answer_lines(alloc, after)?;
    let last = last_call(&known);
    let count = if last.is_empty() {
        0
    } else {
        known_lines(last, &lines)
    };
    for line in lines.iter().skip(count) {
        if line.starts_with("call ") {
            append_event(out, b"call", line.as_bytes())?;
        }
    }
    Ok(())
}

/// Appends an event that tells whether the desk is closed, and who held its lease.
fn append_lease(
    alloc: Global,
    closed: &Option<Vec<u8>>,
    out: &mut Vec<u8>,
) -> Result<(), AllocError> {
    match closed {
        Some(name) => {
            let mut told = Vec::from_slice(alloc, b"closed ")?;
            told.extend_from_slice(name)?;
            append_event(out, b"lease", &told)
        }
        None => append_event(out, b"lease", b"open"),
    }
}

impl Follow {
    /// Nothing is known.
    pub(crate) fn new(alloc: Global) -> Self {
        Self {
            next_look: 0,
            next_lease: 0,
            next_beat: 0,
            newest: Vec::new(alloc),
            log: Vec::new(alloc),
            has_log: false,
            wants_desk: true,
            wants_log: true,
            state: BridgeState::There,
            closed: None,
            edits: Vec::new(alloc),
            events: Vec::new(alloc),
        }
    }

    /// The line that is to be asked now, if there is one.
    pub(crate) fn due_line(&mut self, now: u64) -> Option<&'static [u8]> {
        if self.wants_desk {
            self.wants_desk = false;
            Some(Query::Desk.line())
        } else if self.wants_log {
            self.wants_log = false;
            Some(Query::Calls.line())
        } else if now >= self.next_look {
            self.next_look = now.saturating_add(LOOK_INTERVAL);
            Some(latest_line())
        } else if now >= self.next_lease {
            self.next_lease = now.saturating_add(LEASE_INTERVAL);
            Some(lease_line())
        } else {
            None
        }
    }

    /// Notes that calls may have been accepted or refused: the desk, the log and the lease are asked for.
    pub(crate) fn note_change(&mut self) {
        self.next_lease = 0;
        self.wants_desk = true;
        self.wants_log = true;
    }

    /// Drops the events that no browser has yet: nobody has the stream.
    pub(crate) fn clear(&mut self) {
        self.events.clear();
        self.edits.clear();
        self.next_lease = 0;
    }

    /// The log, as the bridge told it last.
    pub(crate) fn log(&self) -> &[u8] {
        &self.log
    }

    /// Whether all that was asked of the desk is still right, as far as is known.
    pub(crate) fn is_settled(&self) -> bool {
        self.state == BridgeState::There && !self.wants_log && !self.wants_desk
    }

    /// Takes the newest call, which may be another one than before.
    pub(crate) fn note_newest(&mut self, alloc: Global, text: &[u8]) -> Result<bool, AllocError> {
        if self.newest.as_slice() == text {
            return Ok(false);
        }
        self.newest = Vec::from_slice(alloc, text)?;
        self.note_change();
        Ok(true)
    }

    /// Takes the log. Tells the calls that are new in it, and then the edits of the desk before it.
    pub(crate) fn note_log(&mut self, alloc: Global, text: &[u8]) -> Result<(), AllocError> {
        if let (false, Ok(before), Ok(after)) = (
            self.log.is_empty(),
            str::from_utf8(&self.log),
            str::from_utf8(text),
        ) {
            append_calls(alloc, before, after, &mut self.events)?;
        }
        self.log = Vec::from_slice(alloc, text)?;
        self.has_log = true;
        self.events.extend_from_slice(&self.edits)?;
        self.edits.clear();
        Ok(())
    }

    /// Takes the desk's text. What turns the one before into it is told with the next log: both states, where octets
    /// go, how many, and those that come in their place.
    pub(crate) fn note_desk(
        &mut self,
        alloc: Global,
        texts: &DeskTexts,
        run: &str,
        text: &[u8],
    ) -> Result<(), AllocError> {
        if texts.number == 0 || texts.text.as_slice() == text {
            return Ok(());
        }
        let edit = edit_between(&texts.text, text);
        let (number, next) = (texts.number, texts.number.saturating_add(1));
        let (start, removed) = (edit.start, edit.removed);
        let head = format!(in alloc; "{run}-{number} {run}-{next} {start} {removed}\n")?;
        let mut told = head.into_bytes();
        if let Some(inserted) = text.get(start..start.saturating_add(edit.inserted)) {
            told.extend_from_slice(inserted)?;
        }
        self.wants_log = true;
        append_event(&mut self.edits, b"desk", &told)
    }

    /// Takes what a reply says of the bridge, and tells it where it is another state than before.
    pub(crate) fn note_bridge(&mut self, state: BridgeState) -> Result<(), AllocError> {
        if self.state == state {
            return Ok(());
        }
        self.state = state;
        self.newest.clear();
        self.note_change();
        append_event(&mut self.events, b"bridge", state.word())
    }

    /// Takes what the bridge says of its lease, and tells browsers where the desk was closed or is open again.
    pub(crate) fn note_lease(&mut self, alloc: Global, answer: &[u8]) -> Result<(), AllocError> {
        let closed = match closed_by(answer) {
            Some(name) => Some(Vec::from_slice(alloc, name)?),
            None => None,
        };
        if self.closed != closed {
            self.closed = closed;
            append_lease(alloc, &self.closed, &mut self.events)?;
        }
        Ok(())
    }

    /// The first events of a stream: the state of the desk's text, as `/desk.txt` names it, whether the desk is closed,
    /// and that the bridge isn't there where it isn't.
    pub(crate) fn hello(
        &self,
        alloc: Global,
        run: &str,
        number: u64,
    ) -> Result<Vec<u8>, AllocError> {
        let mut events = Vec::new(alloc);
        let told = format!(in alloc; "{run}-{number}")?;
        append_event(&mut events, b"hello", told.as_bytes())?;
        append_lease(alloc, &self.closed, &mut events)?;
        if self.state != BridgeState::There {
            append_event(&mut events, b"bridge", self.state.word())?;
        }
        Ok(events)
    }

    /// Tells that the program is alive, every 2 s.
    pub(crate) fn note_beat(&mut self, alloc: Global, now: u64) -> Result<(), AllocError> {
        if now < self.next_beat {
            return Ok(());
        }
        self.next_beat = now.saturating_add(BEAT_INTERVAL);
        let told = format!(in alloc; "{now}")?;
        append_event(&mut self.events, b"beat", told.as_bytes())
    }
}
