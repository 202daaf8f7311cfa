//! The page as a service, in two steps. A [`Router`] responds to what needs no bridge, and otherwise names the line for
//! the bridge. Once the bridge has replied, a [`Responder`] responds to that same request.

ghost use Rattle.std.specs.Prelude.{◌≡◌, IfOk, option_map};
ghost use Rattle.http.specs.Request.{body_of};
ghost use Rattle.desk_http.specs.Routes.{route_of};
ghost use Rattle.desk_http.specs.Services.{
  bridge_line,
  is_file,
  requested_line,
  is_line_wanted,
  RoutesRequest,
  Responds,
};

use crate::knowing::is_known;
use crate::person::{person_of, seen_of};
use crate::relaying::{Tables, relay};
use crate::responding::{respond, respond_known, respond_mismatch};
use crate::{Assets, BridgeReply, Route, Site, route_of};
use bytes::Bytes;
use http::Request;
use http_server::{Response, Service};
use std::alloc::{AllocError, Global};

/// The line that a route hands to the bridge, to the store of names or to the stream of events, if it has one.
fn bridge_line(route: Route, body: &[u8]) -> Option<&[u8]>
    ensures { option_map (λ x. x.now) result ≡ bridge_line route body.now }
{
    match route {
        Route::Read(query, _) => Some(query.line()),
        Route::Events => Some(b"events"),
        Route::Call => Some(body),
        Route::Names => Some(b"names"),
        Route::ChangeNames => Some(body),
        Route::Page | Route::File(_) | Route::Refused(_) => None,
    }
}

/// Whether a route is to a file of the page.
fn is_file(route: Route) -> bool
    ensures { result ≡ is_file route }
{
    match route {
        Route::Page | Route::File(_) => true,
        Route::Read(_, _)
        | Route::Events
        | Route::Call
        | Route::Names
        | Route::ChangeNames
        | Route::Refused(_) => false,
    }
}

/// The line of a request: its path where it asks for a file of a folder, and else what its route hands over.
fn requested_line<'a>(site: &Site, request: &'a Request<Bytes>) -> Option<&'a [u8]>
    ensures { option_map (λ x. x.now) result ≡ requested_line site.now request.now }
{
    let route = route_of(site, request);
    if site.has_folder && is_file(route) {
        Some(request.uri().path().as_bytes())
    } else {
        bridge_line(route, request.body().as_slice())
    }
}

fn copy_of(alloc: Global, line: Option<&[u8]>) -> Result<Option<Vec<u8>>, AllocError>
    ensures { IfOk result (λ copy. option_map (λ v. v.items) copy ≡ option_map (λ x. x.now) line.entry) }
{
    match line {
        Some(line) => Ok(Some(Vec::from_slice(alloc, line)?)),
        None => Ok(None),
    }
}

/// Finds the route of a request, and responds to it if that takes no bridge.
#[derive(Drop)]
pub struct Router {
    /// Where the lines are allocated.
    pub alloc: Global,
    /// How browsers name the page, and its token.
    pub site: Site,
    /// The page's files.
    pub assets: Assets,
    /// Who gave the last request, as the request says it.
    pub person: Vec<u8>,
    /// The version of the desk that this person saw, where the request says it.
    pub seen: Option<u64>,
    /// The request's line for the bridge, the store of names, the stream of events or the folder. While there is one,
    /// what the connection would send is a placeholder.
    pub line: Option<Vec<u8>>,
}

impl Service for Router {
    ghost answers = { λ old request response new. RoutesRequest old request response new };

    fn call(
        &mut self,
        request: &Request<Bytes>,
        response: &mut Response,
    ) -> Result<(), AllocError> {
        let route = route_of(&self.site, request);
        respond(
            response,
            &self.site,
            &self.assets,
            request.uri().path(),
            route,
        )?;
        let person = Vec::from_slice(self.alloc, person_of(request))?;
        let line = copy_of(self.alloc, requested_line(&self.site, request))?;
        self.person = person;
        self.seen = seen_of(request);
        self.line = line;
        Ok(())
    }
}

/// Responds to a request with the bridge's reply to its line, and to a request with another line with an error.
// The server of the kit calls a service and encodes its response in one step, and gives out neither the request nor the
// encoder. So only a connection that reads the request once more can respond later, and no reply reaches another
// request.
#[derive(Clone, Copy)]
pub struct Responder<'a> {
    /// Where the responses are allocated.
    pub alloc: Global,
    /// How answers are handed on to machines.
    pub tables: &'a Tables,
    /// How browsers name the page, and its token.
    pub site: &'a Site,
    /// The line that was replied to.
    pub line: &'a [u8],
    /// The reply to that line.
    pub reply: &'a BridgeReply,
}

impl<'a> Responder<'a> {
    /// Whether the request has this line.
    fn is_for(&self, request: &Request<Bytes>) -> bool
        ensures { result
            ≡ is_line_wanted self.now.line.now
            (requested_line self.now.site.now request.now) }
    {
        match requested_line(self.site, request) {
            Some(line) => self.line == line,
            None => false,
        }
    }
}

impl<'a> Service for Responder<'a> {
    ghost answers = { λ old request response new. Responds old request response new };

    fn call(
        &mut self,
        request: &Request<Bytes>,
        response: &mut Response,
    ) -> Result<(), AllocError> {
        if self.is_for(request) {
            let route = route_of(self.site, request);
            if is_known(route, request.uri().query(), self.reply) {
                respond_known(response)
            } else {
                relay(self.alloc, response, self.tables, route, self.reply)
            }
        } else {
            respond_mismatch(response)
        }
    }
}
