//! What the page asks the bridge without changing anything.

ghost use Rattle.std.specs.Prelude.{◌≡◌};
ghost use Rattle.desk_http.specs.Queries.{query_line, latest_line, is_query, is_stats, is_calls};

/// What the page asks the bridge without changing anything. Its reply has many lines, and all who ask get the same one.
#[derive(Clone, Copy)]
pub enum Query {
    /// All rows of the desk.
    Desk,
    /// The last 256 calls in force, and the last 256 that can be redone. That is less than the 4 MiB that the bridge
    /// keeps for an operator.
    History,
    /// The last 512 calls of the log, with their moments and names. An older bridge answers by a fault.
    Calls,
    /// What the bridge counts. A bridge that doesn't know this question answers by a fault.
    Stats,
}

/// How an answer of the bridge is handed on.
#[derive(Clone, Copy)]
pub enum AnswerForm {
    /// As the bridge's own lines.
    Lines,
    /// As JSON.
    Json,
    /// As metrics, in the text format of Prometheus.
    Metrics,
}

impl Query {
    /// Its line for the bridge.
    pub fn line(self) -> &'static [u8]
        ensures { result.now ≡ query_line self }
    {
        match self {
            Query::Desk => b"show",
            Query::History => b"history 256",
            Query::Calls => b"calls 512",
            Query::Stats => b"stats",
        }
    }
}

/// The line that asks for the newest call, by which the page follows the desk: its answer is short, and ends by the
/// desk's version.
pub fn latest_line() -> &'static [u8]
    ensures { result.now ≡ latest_line }
{
    b"history 1"
}

/// Whether a line asks what the bridge counts.
pub(crate) fn is_stats(line: &[u8]) -> bool
    ensures { result ≡ is_stats line.now }
{
    line == Query::Stats.line()
}

/// Whether a line asks for the calls of the log.
pub(crate) fn is_calls(line: &[u8]) -> bool
    ensures { result ≡ is_calls line.now }
{
    line == Query::Calls.line()
}

/// Whether a line asks without changing anything.
pub(crate) fn is_query(line: &[u8]) -> bool
    ensures { result ≡ is_query line.now }
{
    line == Query::Desk.line()
        || line == Query::History.line()
        || is_calls(line)
        || is_stats(line)
        || line == latest_line()
}
