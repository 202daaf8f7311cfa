//! Which answers a browser has already.

ghost use Rattle.std.specs.Prelude.{◌≡◌, option_map, option_copied};
ghost use Rattle.desk_http.specs.States.{is_state, state_in, is_seen, is_desk_lines, is_known};
ghost use Rattle.desk_http.specs.BridgeRequests.{before_last_lf};

use crate::bridge_request::{before_last_lf, last_line};
use crate::{AnswerForm, BridgeReply, Query, Route};

/// Whether a line is `state` and this word.
fn is_state(word: &[u8], line: &[u8]) -> bool
    ensures { result ≡ is_state word.now line.now }
{
    line.len() >= 6 && &line[..6] == b"state ".as_slice() && &line[6..] == word
}

/// The state that a query names, as `after=STATE`.
fn state_in(query: &[u8]) -> Option<&[u8]>
    ensures { option_map (λ x. x.now) result ≡ state_in query.now }
{
    if query.len() >= 6 && &query[..6] == b"after=".as_slice() {
        Some(&query[6..])
    } else {
        None
    }
}

/// Whether a state is the one that a text's last line names.
fn is_seen(word: Option<&[u8]>, text: Option<&[u8]>) -> bool
    ensures { result ≡ is_seen (option_map (λ x. x.now) word.entry) (option_map (λ x. x.now) text.entry) }
{
    match (word, text) {
        (Some(word), Some(text)) => is_state(word, last_line(text)),
        (Some(_), None) => false,
        (None, _) => false,
    }
}

/// Whether a route asks for the lines of the desk.
fn is_desk_lines(route: Route) -> bool
    ensures { result ≡ is_desk_lines route }
{
    match route {
        Route::Read(Query::Desk, AnswerForm::Lines) => true,
        Route::Read(Query::Desk, AnswerForm::Json | AnswerForm::Metrics) => false,
        Route::Read(Query::History | Query::Calls | Query::Stats, _) => false,
        Route::Page
        | Route::File(_)
        | Route::Events
        | Route::Call
        | Route::Names
        | Route::ChangeNames
        | Route::Refused(_) => false,
    }
}

/// Whether a browser has the answer to its request: its query names the state that the answer ends with.
pub(crate) fn is_known(route: Route, query: Option<&str>, reply: &BridgeReply) -> bool
    ensures { result ≡ is_known route (option_copied query.entry) reply.now }
{
    match (query, reply) {
        (Some(query), BridgeReply::Text(answer)) => {
            is_desk_lines(route) && is_seen(state_in(query.as_bytes()), before_last_lf(answer))
        }
        (Some(_), BridgeReply::Busy | BridgeReply::Gone | BridgeReply::Lost) => false,
        (Some(_), BridgeReply::Full | BridgeReply::Newer(_) | BridgeReply::Missing) => false,
        (None, _) => false,
    }
}
