//! The responses that hand on what the bridge said.

ghost use Rattle.std.specs.Prelude.{◌≡◌, codes, IfOk, OnOk, option_map};
ghost use Rattle.http_server.specs.Response.{IsBlank};
ghost use Rattle.desk_http.specs.Responses.{IsPageResponse};
ghost use Rattle.desk_http.specs.Relays.{
  readable_text,
  shapes_of,
  json_body,
  metrics_body,
  told_response,
  form_response,
  text_response_of,
  newer_response,
  relayed_response,
};

use crate::bridge_metrics::bridge_families;
use crate::bridge_request::is_fault;
use crate::call_shapes::{calls_shapes, history_shapes};
use crate::desk_shapes::desk_shapes;
use crate::media_metrics::media_families;
use crate::metrics::{Family, metrics_text};
use crate::responding::{fill, fill_missing, fill_text, media_type};
use crate::rows::{RowShape, json_text};
use crate::stats_shapes::stats_shapes;
use crate::stream_metrics::stream_families;
use crate::{AnswerForm, BridgeReply, Query, Route};
use bytes::{BufMut, Bytes};
use http::{HeaderValue, StatusCode};
use http_server::Response;
use std::alloc::{AllocError, Global};

/// How the bridge's answers are handed on to machines.
#[derive(Clone, Copy)]
pub struct Tables {
    /// The metrics, of the answer to `stats`.
    pub families: [&'static [Family]; 3],
    /// The JSON of the answer to `show`.
    pub desk: &'static [RowShape],
    /// The JSON of the answer to `history 256`.
    pub history: &'static [RowShape],
    /// The JSON of the answer to `calls 512`.
    pub calls: &'static [RowShape],
    /// The JSON of the answer to `stats`.
    pub stats: &'static [RowShape],
}

/// The tables of the page.
// A function for each table keeps its rows out of the proofs of all that use them.
pub fn page_tables() -> Tables {
    Tables {
        families: [media_families(), stream_families(), bridge_families()],
        desk: desk_shapes(),
        history: history_shapes(),
        calls: calls_shapes(),
        stats: stats_shapes(),
    }
}

impl Tables {
    fn shapes_of(&self, query: Query) -> &'static [RowShape]
        ensures { result.now ≡ shapes_of self.now query }
    {
        match query {
            Query::Desk => self.desk,
            Query::History => self.history,
            Query::Calls => self.calls,
            Query::Stats => self.stats,
        }
    }
}

/// An answer as a text, if it is one and no fault.
#[tactic(auto, using(crate::proofs::RelayLemmas::utf8_yes, crate::proofs::RelayLemmas::utf8_no))]
fn readable_text(answer: &[u8]) -> Option<&str>
    ensures { option_map (λ x. x.now) result ≡ readable_text answer.now }
{
    if is_fault(answer) {
        return None;
    }
    match str::from_utf8(answer) {
        Ok(text) => Some(text),
        Err(_) => None,
    }
}

/// An answer as JSON, if it is a text and no fault.
fn json_body(
    alloc: Global,
    shapes: &[RowShape],
    answer: &[u8],
) -> Result<Option<Vec<u8>>, AllocError>
    ensures { IfOk result (λ body. option_map (λ v. v.items) body ≡ json_body shapes.now answer.now) }
{
    match readable_text(answer) {
        Some(text) => Ok(Some(json_text(alloc, shapes, text)?)),
        None => Ok(None),
    }
}

/// An answer as metrics, if it is a text and no fault.
fn metrics_body(
    alloc: Global,
    families: &[&[Family]],
    answer: &[u8],
) -> Result<Option<Vec<u8>>, AllocError>
    ensures { IfOk result (λ body. option_map (λ v. v.items) body ≡ metrics_body families.now answer.now) }
{
    match readable_text(answer) {
        Some(text) => Ok(Some(metrics_text(alloc, families, text)?)),
        None => Ok(None),
    }
}

/// Fills in the response by a text of this type.
fn fill_body(
    response: &mut Response,
    content_type: HeaderValue,
    body: &[u8],
) -> Result<(), AllocError>
    requires { IsBlank response.old }
    ensures { OnOk result (IsPageResponse
        (record { status = 200; content_type = content_type.bytes; body = body.now }) response.new) }
{
    fill(response, StatusCode::OK, content_type, Bytes::new())?;
    response.body.put_slice(body)
}

/// Fills in the response by a text of this type, or says that the bridge doesn't know the question.
fn fill_told(
    response: &mut Response,
    content_type: HeaderValue,
    body: Option<Vec<u8>>,
) -> Result<(), AllocError>
    requires { IsBlank response.old }
    ensures { OnOk result
        (IsPageResponse (told_response content_type.bytes (option_map (λ v. v.items) body)) response.new) }
{
    match body {
        Some(body) => fill_body(response, content_type, &body),
        None => fill_text(
            response,
            StatusCode::NOT_IMPLEMENTED,
            b"Unknown: this bridge doesn't know the question, it is an older one\n",
        ),
    }
}

/// Fills in the response by the bridge's answer to a query, handed on in a form.
fn fill_form(
    alloc: Global,
    response: &mut Response,
    tables: &Tables,
    query: Query,
    form: AnswerForm,
    answer: &[u8],
) -> Result<(), AllocError>
    requires { IsBlank response.old }
    ensures { OnOk result (IsPageResponse (form_response tables.now query form answer.now) response.new) }
{
    match form {
        AnswerForm::Lines => {
            let content_type = HeaderValue::from_static("text/plain; charset=utf-8");
            fill_body(response, content_type, answer)
        }
        AnswerForm::Json => {
            let content_type = HeaderValue::from_static("application/json");
            let body = json_body(alloc, tables.shapes_of(query), answer)?;
            fill_told(response, content_type, body)
        }
        AnswerForm::Metrics => {
            let content_type = HeaderValue::from_static("text/plain; version=0.0.4; charset=utf-8");
            let body = metrics_body(alloc, &tables.families, answer)?;
            fill_told(response, content_type, body)
        }
    }
}

/// Fills in the response to a request of this route by the bridge's answer.
fn fill_answer(
    alloc: Global,
    response: &mut Response,
    tables: &Tables,
    route: Route,
    answer: &[u8],
) -> Result<(), AllocError>
    requires { IsBlank response.old }
    ensures { OnOk result (IsPageResponse (text_response_of tables.now route answer.now) response.new) }
{
    match route {
        Route::Read(query, form) => fill_form(alloc, response, tables, query, form, answer),
        Route::Page => {
            let content_type = HeaderValue::from_static("text/html; charset=utf-8");
            fill_body(response, content_type, answer)
        }
        Route::File(kind) => fill_body(response, media_type(kind), answer),
        Route::Events | Route::Call | Route::Names | Route::ChangeNames | Route::Refused(_) => {
            let content_type = HeaderValue::from_static("text/plain; charset=utf-8");
            fill_body(response, content_type, answer)
        }
    }
}

/// Fills in the response to a call that isn't sent, since this one of the log came first.
fn fill_newer(response: &mut Response, call: &[u8]) -> Result<(), AllocError>
    requires { IsBlank response.old }
    ensures { OnOk result (IsPageResponse (newer_response call.now) response.new) }
{
    fill_text(
        response,
        StatusCode::CONFLICT,
        b"Newer: another person touched that row after this desk was seen, nothing was sent\n",
    )?;
    response.body.put_slice(call)?;
    response.body.put_slice(b"\n")
}

/// Fills in the response to a request of this route by the bridge's reply.
pub(crate) fn relay(
    alloc: Global,
    response: &mut Response,
    tables: &Tables,
    route: Route,
    reply: &BridgeReply,
) -> Result<(), AllocError>
    requires { IsBlank response.old }
    ensures { OnOk result (IsPageResponse (relayed_response tables.now route reply.now) response.new) }
{
    match reply {
        BridgeReply::Text(answer) => fill_answer(alloc, response, tables, route, answer),
        BridgeReply::Busy => fill_text(
            response,
            StatusCode::SERVICE_UNAVAILABLE,
            b"Busy: all seats of the bridge are taken, nothing was done\n",
        ),
        BridgeReply::Gone => fill_text(
            response,
            StatusCode::BAD_GATEWAY,
            b"Gone: the bridge is not there, nothing was sent\n",
        ),
        BridgeReply::Lost => fill_text(
            response,
            StatusCode::GATEWAY_TIMEOUT,
            b"Lost: no answer came, look at the desk before sending the line again\n",
        ),
        BridgeReply::Full => fill_text(
            response,
            StatusCode::SERVICE_UNAVAILABLE,
            b"Full: 24 pages have the events, ask for the desk now and then\n",
        ),
        BridgeReply::Newer(call) => fill_newer(response, call),
        BridgeReply::Missing => fill_missing(response),
    }
}
