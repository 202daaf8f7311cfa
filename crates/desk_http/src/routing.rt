//! Which route a request takes, by its host, origin, path, method, token and body.

ghost use Rattle.std.specs.Prelude.{◌≡◌};
ghost use Rattle.desk_http.specs.Routes.{
  change_route,
  post_names_route,
  names_route,
  file_at,
  written_at,
  resource_at,
  line_route,
  call_route,
  get_only,
  resource_route,
  route_of,
  has_own_host,
  has_own_origin,
  has_token,
};

use crate::files::kind_at;
use crate::lines::{is_change, is_line, is_reserved};
use crate::person::{has_person, has_seen};
use crate::{AnswerForm, FileKind, Query, Site};
use bytes::Bytes;
use http::{Request, header};

/// What a request is for.
#[derive(Clone, Copy)]
pub enum Route {
    /// The page in HTML.
    Page,
    /// A part of the page's script, or its style sheet.
    File(FileKind),
    /// What the bridge answers to a query, handed on like this.
    Read(Query, AnswerForm),
    /// The stream of what happens from now on.
    Events,
    /// A call: the line in its body goes to the bridge.
    Call,
    /// The names that operators gave.
    Names,
    /// A change of these names: its body has all of them.
    ChangeNames,
    /// It is refused.
    Refused(PageRefusal),
}

/// Why a request is refused. The first reason that holds is reported.
#[derive(Clone, Copy)]
pub enum PageRefusal {
    /// It names another host, or none.
    ForeignHost,
    /// A page of another origin sends it.
    ForeignOrigin,
    /// There is nothing at its path.
    NotFound,
    /// Its method isn't the one of its path.
    NotAllowed,
    /// It doesn't have the page's token.
    NoToken,
    /// Its person's name isn't 1 to 64 octets from 33 to 126.
    NoPerson,
    /// The version that its person saw isn't a number below 2^64.
    NoVersion,
    /// Its body isn't 1 to 4,096 octets from 32 to 126.
    NoLine,
    /// Its body begins with `names`, or as a line of an operator that is no call, such as `show` or `help`.
    Reserved,
    /// Its body doesn't begin with the word `names`, or has over 262,144 octets.
    NoNames,
}

/// What the page has at a path.
#[derive(Clone, Copy)]
pub(crate) enum Resource {
    Page,
    File(FileKind),
    Read(Query, AnswerForm),
    Events,
    Call,
    Names,
}

/// The file at a path.
fn file_at(path: &str) -> Option<Resource>
    ensures { result ≡ file_at path.now }
{
    match kind_at(path.as_bytes()) {
        Some(kind) => Some(Resource::File(kind)),
        None => None,
    }
}

/// What is written at a path, or the file there.
fn written_at(path: &str) -> Option<Resource>
    ensures { result ≡ written_at path.now }
{
    if path == "/call" {
        Some(Resource::Call)
    } else if path == "/names" {
        Some(Resource::Names)
    } else {
        file_at(path)
    }
}

fn resource_at(path: &str) -> Option<Resource>
    ensures { result ≡ resource_at path.now }
{
    if path == "/" {
        Some(Resource::Page)
    } else if path == "/desk" {
        Some(Resource::Read(Query::Desk, AnswerForm::Json))
    } else if path == "/desk.txt" {
        Some(Resource::Read(Query::Desk, AnswerForm::Lines))
    } else if path == "/history" {
        Some(Resource::Read(Query::History, AnswerForm::Json))
    } else if path == "/history.txt" {
        Some(Resource::Read(Query::History, AnswerForm::Lines))
    } else if path == "/past" {
        Some(Resource::Read(Query::Calls, AnswerForm::Json))
    } else if path == "/past.txt" {
        Some(Resource::Read(Query::Calls, AnswerForm::Lines))
    } else if path == "/stats" {
        Some(Resource::Read(Query::Stats, AnswerForm::Json))
    } else if path == "/metrics" {
        Some(Resource::Read(Query::Stats, AnswerForm::Metrics))
    } else if path == "/events" {
        Some(Resource::Events)
    } else {
        written_at(path)
    }
}

fn line_route(body: &[u8]) -> Route
    ensures { result ≡ line_route body.now }
{
    if !is_line(body) {
        Route::Refused(PageRefusal::NoLine)
    } else if is_reserved(body) {
        Route::Refused(PageRefusal::Reserved)
    } else {
        Route::Call
    }
}

fn has_own_host(site: &Site, request: &Request<Bytes>) -> bool
    ensures { result ≡ has_own_host site.now request.now }
{
    match request.headers().get(header::HOST) {
        Some(value) => site.is_host(value.as_bytes()),
        None => false,
    }
}

/// Whether a request comes from the page itself, or from no web page.
fn has_own_origin(site: &Site, request: &Request<Bytes>) -> bool
    ensures { result ≡ has_own_origin site.now request.now }
{
    match request.headers().get(header::ORIGIN) {
        Some(value) => site.is_origin(value.as_bytes()),
        None => true,
    }
}

fn has_token(site: &Site, request: &Request<Bytes>) -> bool
    ensures { result ≡ has_token site.now request.now }
{
    match request.headers().get("x-desk-token") {
        Some(value) => value.as_bytes() == site.token.as_slice(),
        None => false,
    }
}

/// The route of a request to `/call`.
fn call_route(site: &Site, request: &Request<Bytes>) -> Route
    ensures { result ≡ call_route site.now request.now }
{
    if request.method().as_str() != "POST" {
        Route::Refused(PageRefusal::NotAllowed)
    } else if !has_token(site, request) {
        Route::Refused(PageRefusal::NoToken)
    } else if !has_person(request) {
        Route::Refused(PageRefusal::NoPerson)
    } else if !has_seen(request) {
        Route::Refused(PageRefusal::NoVersion)
    } else {
        line_route(request.body().as_slice())
    }
}

/// The route if the method is GET; other methods are refused.
fn get_only(request: &Request<Bytes>, route: Route) -> Route
    ensures { result ≡ get_only request.now route }
{
    if request.method().as_str() == "GET" {
        route
    } else {
        Route::Refused(PageRefusal::NotAllowed)
    }
}

fn change_route(body: &[u8]) -> Route
    ensures { result ≡ change_route body.now }
{
    if is_change(body) {
        Route::ChangeNames
    } else {
        Route::Refused(PageRefusal::NoNames)
    }
}

/// The route of a POST to `/names`.
fn post_names_route(site: &Site, request: &Request<Bytes>) -> Route
    ensures { result ≡ post_names_route site.now request.now }
{
    if has_token(site, request) {
        change_route(request.body().as_slice())
    } else {
        Route::Refused(PageRefusal::NoToken)
    }
}

/// The route of a request to `/names`.
fn names_route(site: &Site, request: &Request<Bytes>) -> Route
    ensures { result ≡ names_route site.now request.now }
{
    if request.method().as_str() == "POST" {
        post_names_route(site, request)
    } else {
        get_only(request, Route::Names)
    }
}

/// The route to what the page has at a path. Host and origin were checked.
fn resource_route(site: &Site, request: &Request<Bytes>, resource: Option<Resource>) -> Route
    ensures { result ≡ resource_route site.now request.now resource }
{
    match resource {
        Some(Resource::Page) => get_only(request, Route::Page),
        Some(Resource::File(kind)) => get_only(request, Route::File(kind)),
        Some(Resource::Read(query, form)) => get_only(request, Route::Read(query, form)),
        Some(Resource::Events) => get_only(request, Route::Events),
        Some(Resource::Call) => call_route(site, request),
        Some(Resource::Names) => names_route(site, request),
        None => Route::Refused(PageRefusal::NotFound),
    }
}

/// The route of a request, or the first reason to refuse it.
pub fn route_of(site: &Site, request: &Request<Bytes>) -> Route
    ensures { result ≡ route_of site.now request.now }
{
    if !has_own_host(site, request) {
        Route::Refused(PageRefusal::ForeignHost)
    } else if !has_own_origin(site, request) {
        Route::Refused(PageRefusal::ForeignOrigin)
    } else {
        resource_route(site, request, resource_at(request.uri().path()))
    }
}
