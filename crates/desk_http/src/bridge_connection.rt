//! The page's connection to the bridge, without its socket, and the name that the bridge knows it by.

ghost use Rattle.std.specs.Prelude.{
  ◌≡◌,
  false,
  ◌+◌,
  ◌-◌,
  ◌^◌,
  ◌++◌,
  OnOk,
  OnErr,
  IfNone,
  IfSome,
  min,
  drop,
  option_map,
  true,
  None,
};
ghost use Rattle.std.specs.Option.{is_none};
ghost use Rattle.desk_http.specs.BridgeConnections.{
  line_of,
  received_of,
  IsStarted,
  KeepsLine,
  unanswered,
  outcome_by,
  outcome_of,
  reply_by,
  finished_in,
  is_reused,
  is_open_after,
  wants_read,
  naming_line,
  is_named_after,
  has_name,
  KeepsName,
};

use crate::connection_name::{named_by, naming_line};
use crate::{BridgeReply, BridgeRequest, ReplyProgress};
use std::alloc::{AllocError, Global};

/// How many milliseconds the bridge has to accept a connection and to reply.
const REPLY_TIMEOUT: u64 = 2_000;

/// How a request has ended.
#[derive(Clone, Copy)]
pub(crate) enum RequestOutcome {
    /// All of it was sent, and all of its reply came.
    Answered,
    /// The bridge has no free seat.
    Busy,
    /// No octet of it was sent.
    Unsent,
    /// Octets of it were sent, and no whole reply came.
    Unanswered,
}

/// The page's connection to the bridge, without its socket. It has one request at a time.
///
/// [`open`](Self::open) it once a socket connects, and [`begin`](Self::begin) a line. Send what is
/// [`unsent`](Self::unsent), [`mark_sent`](Self::mark_sent) what the socket took, and [`receive`](Self::receive) what
/// comes. [`poll_reply`](Self::poll_reply) then gives the line back with its reply.
#[derive(Drop)]
pub struct BridgeConnection {
    /// The line under way, and what has come of its reply.
    pub request: Option<BridgeRequest>,
    /// The octets of the line, and its LF.
    pub output: Vec<u8>,
    /// How many octets of the output were sent.
    pub sent: usize,
    /// When the request is given up, in milliseconds.
    pub deadline: u64,
    /// The socket is connected or connects. Where this is false, close the socket.
    pub is_open: bool,
    /// The name that was asked for last.
    pub name: Vec<u8>,
    /// The bridge has given this name.
    pub is_named: bool,
}

impl BridgeConnection {
    /// A connection that isn't open, without a request.
    pub fn new(alloc: Global) -> Self
        ensures request { result.request ≡ None }
        ensures is_open { result.is_open ≡ false }
        ensures is_named { result.is_named ≡ false }
    {
        Self {
            request: None,
            output: Vec::new(alloc),
            sent: 0,
            deadline: 0,
            is_open: false,
            name: Vec::new(alloc),
            is_named: false,
        }
    }

    /// A new socket connects. It has no name yet.
    pub fn open(&mut self)
        ensures is_open { self.new.is_open ≡ true }
        ensures is_named { self.new.is_named ≡ false }
        ensures request { self.new.request ≡ self.old.request }
        ensures kept { KeepsLine self.old self.new }
    {
        self.is_open = true;
        self.is_named = false;
    }

    /// Whether the bridge knows the connection by this name. A person's call goes over no other connection: where this
    /// is false, [`begin_naming`](Self::begin_naming) first.
    pub fn has_name(&self, name: &[u8]) -> bool
        ensures { result ≡ has_name self.now name.now }
    {
        self.is_open && self.is_named && self.name.as_slice() == name
    }

    /// Whether no request is under way.
    pub fn is_idle(&self) -> bool
        ensures { result ≡ is_none self.now.request }
    {
        self.request.is_none()
    }

    /// Begins a request at this moment, in milliseconds. It replaces one that is under way.
    pub fn begin(&mut self, alloc: Global, line: Vec<u8>, now: u64) -> Result<(), AllocError>
        ensures started { OnOk result (IsStarted line.items now self.new) }
        ensures is_open { self.new.is_open ≡ self.old.is_open }
        ensures kept { KeepsName self.old self.new }
    {
        let request = BridgeRequest::new(alloc, line);
        self.output = request.encode(alloc)?;
        self.sent = 0;
        self.deadline = now.saturating_add(REPLY_TIMEOUT);
        self.request = Some(request);
        Ok(())
    }

    /// Begins the request that gives the connection this name.
    pub fn begin_naming(&mut self, alloc: Global, name: &[u8], now: u64) -> Result<(), AllocError>
        ensures started { OnOk result (IsStarted (naming_line name.now) now self.new) }
        ensures name { OnOk result (self.new.name.items ≡ name.now) }
        ensures is_named { OnOk result (self.new.is_named ≡ false) }
        ensures is_open { self.new.is_open ≡ self.old.is_open }
    {
        let line = naming_line(alloc, name)?;
        self.name = Vec::from_slice(alloc, name)?;
        self.is_named = false;
        self.begin(alloc, line, now)
    }

    /// The rest of the output, from what was marked as sent.
    pub fn unsent(&self) -> &[u8]
        ensures { result.now ≡ drop self.now.sent self.now.output.items }
    {
        match self.output.get(self.sent..) {
            Some(unsent) => unsent,
            None => &[],
        }
    }

    /// Notes that the socket took so many octets more.
    pub fn mark_sent(&mut self, count: usize)
        ensures sent { self.new.sent ≡ min (self.old.sent + count) (2 ^ 64 - 1) }
        ensures output { self.new.output ≡ self.old.output }
        ensures request { self.new.request ≡ self.old.request }
        ensures deadline { self.new.deadline ≡ self.old.deadline }
        ensures is_open { self.new.is_open ≡ self.old.is_open }
        ensures kept { KeepsName self.old self.new }
    {
        self.sent = self.sent.saturating_add(count);
    }

    /// Whether to read the socket: the connection is open, and its request has no whole reply yet. Without a request,
    /// whatever comes closes the connection.
    pub fn wants_read(&self) -> bool
        ensures { result ≡ wants_read self.now }
    {
        self.is_open
            && match &self.request {
                Some(request) => matches!(request.progress(), ReplyProgress::Partial),
                None => true,
            }
    }

    /// Takes in what has come. No octets are the end of the stream, and close the connection. So do octets that no
    /// request asked for.
    pub fn receive(&mut self, octets: &[u8]) -> Result<(), AllocError>
        ensures received { OnOk result
            (received_of self.new ≡ option_map (λ received. received ++ octets.now) (received_of self.old)) }
        ensures is_open { OnOk result (self.new.is_open ≡ is_open_after self.old octets.now) }
        ensures err { OnErr result (received_of self.new ≡ received_of self.old) }
        ensures kept { KeepsLine self.old self.new }
        ensures name { KeepsName self.old self.new }
    {
        match &mut self.request {
            Some(request) => {
                let _progress = request.feed(octets)?;
                self.is_open = self.is_open && !octets.is_empty();
            }
            None => self.is_open = false,
        }
        Ok(())
    }

    /// How a request ends that gets no whole reply.
    fn unanswered(&self) -> RequestOutcome
        ensures { result ≡ unanswered self.now }
    {
        if self.sent == 0 {
            RequestOutcome::Unsent
        } else {
            RequestOutcome::Unanswered
        }
    }

    /// How the request has ended, if it has, where its reply has come so far.
    fn outcome_by(&self, now: u64, progress: ReplyProgress) -> Option<RequestOutcome>
        ensures { result ≡ outcome_by self.now now progress }
    {
        match progress {
            ReplyProgress::Complete => Some(if self.output.len() <= self.sent {
                RequestOutcome::Answered
            } else {
                self.unanswered()
            }),
            ReplyProgress::Busy => Some(RequestOutcome::Busy),
            ReplyProgress::Malformed => Some(self.unanswered()),
            ReplyProgress::Partial => {
                if !self.is_open || self.deadline <= now {
                    Some(self.unanswered())
                } else {
                    None
                }
            }
        }
    }

    /// How the request has ended, if it has.
    fn outcome(&self, now: u64) -> Option<RequestOutcome>
        ensures { result ≡ outcome_of self.now now }
    {
        match &self.request {
            Some(request) => self.outcome_by(now, request.progress()),
            None => None,
        }
    }

    /// Takes the request if it has ended by this moment, in milliseconds: its line and the reply. The connection stays
    /// open only after a whole reply.
    pub fn poll_reply(&mut self, now: u64) -> Option<(Vec<u8>, BridgeReply)>
        ensures over { result ≡ finished_in self.old now }
        ensures is_open { IfSome result (λ over. self.new.is_open ≡ is_reused self.old now) }
        ensures free { IfSome result (λ over. self.new.request ≡ None) }
        ensures is_named { IfSome result (λ over. self.new.is_named ≡ is_named_after self.old now) }
        ensures name { self.new.name ≡ self.old.name }
        ensures on { IfNone result (self.new ≡ self.old) }
    {
        let outcome = self.outcome(now)?;
        let BridgeRequest { line, received } = self.request.take()?;
        self.is_open = self.is_open && matches!(outcome, RequestOutcome::Answered);
        self.is_named = self.is_open && named_by(self.is_named, &line, &received);
        Some((line, reply_by(outcome, received)))
    }
}

/// The reply by how the request ended.
fn reply_by(outcome: RequestOutcome, received: Vec<u8>) -> BridgeReply
    ensures { result ≡ reply_by outcome received }
{
    match outcome {
        RequestOutcome::Answered => BridgeReply::Text(received),
        RequestOutcome::Busy => BridgeReply::Busy,
        RequestOutcome::Unsent => BridgeReply::Gone,
        RequestOutcome::Unanswered => BridgeReply::Lost,
    }
}
