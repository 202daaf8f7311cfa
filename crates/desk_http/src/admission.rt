//! Which browser's connection is closed for a new one, where as many are there as are served at a time.

ghost use Rattle.std.specs.Prelude.{◌≡◌, position};
ghost use Rattle.desk_http.specs.Admission.{
  is_idle,
  is_sending,
  is_responding,
  is_slow,
  is_stalled,
  eviction_candidate,
  placement_of,
  admits_stream,
  keeps_up,
};

/// How many connections are served at a time.
const MAX_CLIENTS: usize = 32;
/// How many of them may have the stream of events.
const MAX_STREAMS: usize = 24;
/// How many octets of events a browser may leave unread.
const MAX_UNREAD: usize = 1_048_576;
/// How many milliseconds a connection has to send its whole request, where all places are taken.
// A browser sends a whole request at once, head and body, so one limit bounds both.
const REQUEST_TIMEOUT: u64 = 500;
/// How many milliseconds a response may stall, where all places are taken.
const STALL_TIMEOUT: u64 = 1_000;

/// How far a browser's connection has come.
#[derive(Clone, Copy)]
pub enum ClientStage {
    /// Nothing of its request has come.
    Idle,
    /// Part of its request has come.
    Sending,
    /// Its request waits for the bridge.
    Waiting,
    /// Its request was answered.
    Responding,
    /// It has the stream of events.
    Streaming,
}

/// What decides which connection keeps its place. Moments are in milliseconds.
#[derive(Clone, Copy)]
pub struct ClientActivity {
    /// How far its request and its response have come.
    pub stage: ClientStage,
    /// When it was accepted.
    pub accepted: u64,
    /// When octets last came or were sent, or its stage began.
    pub active: u64,
}

/// What becomes of a new connection.
#[derive(Clone, Copy)]
pub enum Placement {
    /// It gets a free place.
    Free,
    /// It gets the place of the connection at this index, which is closed.
    Evict(usize),
    /// It is closed.
    Refused,
}

impl ClientStage {
    fn is_idle(self) -> bool
        ensures { result ≡ is_idle self }
    {
        match self {
            ClientStage::Idle => true,
            ClientStage::Sending
            | ClientStage::Waiting
            | ClientStage::Responding
            | ClientStage::Streaming => false,
        }
    }

    fn is_sending(self) -> bool
        ensures { result ≡ is_sending self }
    {
        match self {
            ClientStage::Sending => true,
            ClientStage::Idle
            | ClientStage::Waiting
            | ClientStage::Responding
            | ClientStage::Streaming => false,
        }
    }

    fn is_responding(self) -> bool
        ensures { result ≡ is_responding self }
    {
        match self {
            ClientStage::Responding => true,
            ClientStage::Idle
            | ClientStage::Sending
            | ClientStage::Waiting
            | ClientStage::Streaming => false,
        }
    }
}

impl ClientActivity {
    /// Whether its request isn't whole, and the time for it is over.
    fn is_slow(&self, now: u64) -> bool
        ensures { result ≡ is_slow now self.now }
    {
        self.stage.is_sending() && now.saturating_sub(self.accepted) >= REQUEST_TIMEOUT
    }

    /// Whether nothing of its response was sent for too long.
    fn is_stalled(&self, now: u64) -> bool
        ensures { result ≡ is_stalled now self.now }
    {
        self.stage.is_responding() && now.saturating_sub(self.active) >= STALL_TIMEOUT
    }
}

fn oldest_idle(clients: &[ClientActivity]) -> Option<usize>
    ensures { result ≡ position (λ client. is_idle client.stage) clients.now }
{
    clients.iter().position(|client| client.stage.is_idle())
}

fn oldest_slow(clients: &[ClientActivity], now: u64) -> Option<usize>
    ensures { result ≡ position (is_slow now) clients.now }
{
    clients.iter().position(|client| client.is_slow(now))
}

fn oldest_stalled(clients: &[ClientActivity], now: u64) -> Option<usize>
    ensures { result ≡ position (is_stalled now) clients.now }
{
    clients.iter().position(|client| client.is_stalled(now))
}

/// Which of these connections, the oldest first, may be closed for a new one. One that waits for the bridge or
/// has the stream of events never is.
fn eviction_candidate(clients: &[ClientActivity], now: u64) -> Option<usize>
    ensures { result ≡ eviction_candidate clients.now now }
{
    oldest_idle(clients)
        .or(oldest_slow(clients, now))
        .or(oldest_stalled(clients, now))
}

/// Whether one more connection may have the stream of events, where so many have it: the others serve requests.
pub fn admits_stream(count: usize) -> bool
    ensures { result ≡ admits_stream count }
{
    count < MAX_STREAMS
}

/// Whether a browser with so many unread octets of events keeps its connection. One that loses it loads the desk again.
pub fn keeps_up(unread: usize) -> bool
    ensures { result ≡ keeps_up unread }
{
    unread <= MAX_UNREAD
}

/// Decides on a new connection at this moment, in milliseconds, by those that are there, the oldest first.
pub fn admit(clients: &[ClientActivity], now: u64) -> Placement
    ensures { result ≡ placement_of clients.now now }
{
    if clients.len() < MAX_CLIENTS {
        return Placement::Free;
    }
    match eviction_candidate(clients, now) {
        Some(place) => Placement::Evict(place),
        None => Placement::Refused,
    }
}
