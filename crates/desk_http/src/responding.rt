//! The responses to requests.

ghost use Rattle.std.specs.Prelude.{◌≡◌, ◌++◌, ◌∷◌, [], codes, OnOk, option_map};
ghost use Rattle.http_server.specs.Response.{IsBlank, fields_of};
ghost use Rattle.desk_http.specs.Responses.{
  common_headers,
  html_type,
  text_response,
  page_response,
  media_type,
  missing_response,
  file_response,
  refusal_status,
  refusal_text,
  refusal_response,
  mismatch_response,
  known_response,
  direct_response,
  IsPageResponse,
};

use crate::files::{content_of, name_at};
use crate::{Assets, FileKind, PageRefusal, Route, Site};
use bytes::{BufMut, Bytes};
use http::{HeaderName, HeaderValue, StatusCode, header};
use http_server::Response;
use std::alloc::AllocError;

/// The bridge's reply to a line, or why there is none.
#[derive(Drop)]
pub enum BridgeReply {
    /// The reply, octet by octet.
    Text(Vec<u8>),
    /// The bridge has no free seat, and didn't take the line.
    Busy,
    /// The bridge isn't there. Nothing of the line was sent.
    Gone,
    /// Octets of the line were sent, and no whole reply came.
    Lost,
    /// As many browsers have the stream of events as may have it.
    Full,
    /// This call of the log came first. Nothing of the line was sent.
    Newer(Vec<u8>),
    /// The folder has no such file.
    Missing,
}

/// Adds the headers that all responses have.
fn add_common_headers(response: &mut Response) -> Result<(), AllocError>
    requires { fields_of response.old ≡ [] }
    ensures fields { OnOk result (fields_of response.new ≡ common_headers) }
    ensures status { response.new.status ≡ response.old.status }
    ensures body { response.new.body ≡ response.old.body }
{
    response.add_header(header::CONNECTION, HeaderValue::from_static("close"))?;
    response.add_header(header::CACHE_CONTROL, HeaderValue::from_static("no-store"))?;
    response.add_header(
        header::CONTENT_SECURITY_POLICY,
        HeaderValue::from_static(
            "default-src 'none'; script-src 'self'; style-src 'self'; connect-src 'self'; \
             base-uri 'none'; form-action 'none'; frame-ancestors 'none'",
        ),
    )?;
    response.add_header(
        header::X_CONTENT_TYPE_OPTIONS,
        HeaderValue::from_static("nosniff"),
    )?;
    response.add_header(
        header::REFERRER_POLICY,
        HeaderValue::from_static("no-referrer"),
    )?;
    response.add_header(
        HeaderName::from_static("cross-origin-resource-policy"),
        HeaderValue::from_static("same-origin"),
    )
}

pub(crate) fn fill(
    response: &mut Response,
    status: StatusCode,
    content_type: HeaderValue,
    body: Bytes,
) -> Result<(), AllocError>
    requires { IsBlank response.old }
    ensures { OnOk result
        (IsPageResponse (record { status = status; content_type = content_type.bytes; body = body }) response.new) }
{
    add_common_headers(response)?;
    response.add_header(header::CONTENT_TYPE, content_type)?;
    response.status = status;
    response.body.push(body)
}

pub(crate) fn fill_text(
    response: &mut Response,
    status: StatusCode,
    text: &'static [u8],
) -> Result<(), AllocError>
    requires { IsBlank response.old }
    ensures { OnOk result (IsPageResponse (text_response status text.now) response.new) }
{
    let content_type = HeaderValue::from_static("text/plain; charset=utf-8");
    fill(response, status, content_type, Bytes::from_static(text))
}

/// Fills in the page, with its token.
fn fill_page(response: &mut Response, assets: &Assets, token: &[u8]) -> Result<(), AllocError>
    requires { IsBlank response.old }
    ensures { OnOk result (IsPageResponse (page_response assets.now token.now) response.new) }
{
    let content_type = HeaderValue::from_static("text/html; charset=utf-8");
    fill(
        response,
        StatusCode::OK,
        content_type,
        Bytes::from_static(assets.html_before),
    )?;
    response.body.put_slice(token)?;
    response.body.put_slice(assets.html_after)
}

/// The content type of a file.
pub(crate) fn media_type(kind: FileKind) -> HeaderValue
    ensures { result.bytes ≡ media_type kind }
{
    match kind {
        FileKind::Script => HeaderValue::from_static("text/javascript; charset=utf-8"),
        FileKind::Style => HeaderValue::from_static("text/css; charset=utf-8"),
    }
}

/// Fills in that there is no such file.
pub(crate) fn fill_missing(response: &mut Response) -> Result<(), AllocError>
    requires { IsBlank response.old }
    ensures { OnOk result (IsPageResponse missing_response response.new) }
{
    let refusal = PageRefusal::NotFound;
    fill_text(response, refusal_status(refusal), refusal_text(refusal))
}

/// Fills in a file of this kind, if it is there.
fn fill_file(
    response: &mut Response,
    kind: FileKind,
    content: Option<&'static [u8]>,
) -> Result<(), AllocError>
    requires { IsBlank response.old }
    ensures { OnOk result
        (IsPageResponse (file_response kind (option_map (λ x. x.now) content.entry)) response.new) }
{
    match content {
        Some(content) => {
            fill(
                response,
                StatusCode::OK,
                media_type(kind),
                Bytes::from_static(content),
            )
        }
        None => fill_missing(response),
    }
}

fn refusal_status(refusal: PageRefusal) -> StatusCode
    ensures { result ≡ refusal_status refusal }
{
    match refusal {
        PageRefusal::ForeignHost | PageRefusal::ForeignOrigin | PageRefusal::NoToken =>
            StatusCode::FORBIDDEN,
        PageRefusal::NotFound => StatusCode::NOT_FOUND,
        PageRefusal::NotAllowed => StatusCode::METHOD_NOT_ALLOWED,
        PageRefusal::NoPerson
        | PageRefusal::NoVersion
        | PageRefusal::NoLine
        | PageRefusal::Reserved
        | PageRefusal::NoNames => StatusCode::BAD_REQUEST,
    }
}

/// A refusal in words, its name first.
fn refusal_text(refusal: PageRefusal) -> &'static [u8]
    ensures { result.now ≡ refusal_text refusal }
{
    match refusal {
        PageRefusal::ForeignHost => b"ForeignHost: this page answers to its own address alone\n",
        PageRefusal::ForeignOrigin => b"ForeignOrigin: this page takes nothing from other pages\n",
        PageRefusal::NotFound =>
            b"NotFound: there are /, /desk, /history, /past, /stats, /metrics, /events, /call and /names\n",
        PageRefusal::NotAllowed =>
            b"NotAllowed: POST to /call, GET or POST to /names, GET elsewhere\n",
        PageRefusal::NoToken => b"NoToken: load the page again, its token is of an earlier run\n",
        PageRefusal::NoPerson =>
            b"NoPerson: X-Desk-Person is a name of 1 to 64 octets from ! to ~, or isn't there\n",
        PageRefusal::NoVersion =>
            b"NoVersion: X-Desk-Seen is the number of a version of the desk, or isn't there\n",
        PageRefusal::NoLine => b"NoLine: a call is one line of 1 to 4096 printed octets\n",
        PageRefusal::Reserved =>
            b"Reserved: calls alone are for the page, and no line such as show, watch, as or help\n",
        PageRefusal::NoNames =>
            b"NoNames: a change is the word names, the version that was seen, and a JSON object of texts\n",
    }
}

/// Fills in the response by a route. A route to the bridge, to the names or to the events gets a placeholder, which is
/// never sent.
pub(crate) fn respond(
    response: &mut Response,
    site: &Site,
    assets: &Assets,
    path: &str,
    route: Route,
) -> Result<(), AllocError>
    requires { IsBlank response.old }
    ensures { OnOk result (IsPageResponse (direct_response site.now assets.now path.now route) response.new) }
{
    match route {
        Route::Page => fill_page(response, assets, &site.token),
        Route::File(kind) => {
            let content = content_of(&assets.files, name_at(path.as_bytes()));
            fill_file(response, kind, content)
        }
        Route::Refused(refusal) => {
            fill_text(response, refusal_status(refusal), refusal_text(refusal))
        }
        Route::Read(_, _) | Route::Events | Route::Call | Route::Names | Route::ChangeNames =>
            fill_text(
                response,
                StatusCode::SERVICE_UNAVAILABLE,
                b"Waiting: the bridge is asked\n",
            ),
    }
}

/// Fills in the response to a request for what its browser has already.
pub(crate) fn respond_known(response: &mut Response) -> Result<(), AllocError>
    requires { IsBlank response.old }
    ensures { OnOk result (IsPageResponse known_response response.new) }
{
    fill_text(response, StatusCode::NO_CONTENT, b"")
}

/// Fills in the response to a request whose line isn't the one that was replied to.
pub(crate) fn respond_mismatch(response: &mut Response) -> Result<(), AllocError>
    requires { IsBlank response.old }
    ensures { OnOk result (IsPageResponse mismatch_response response.new) }
{
    fill_text(
        response,
        StatusCode::INTERNAL_SERVER_ERROR,
        b"Other: the bridge was asked for another request\n",
    )
}
