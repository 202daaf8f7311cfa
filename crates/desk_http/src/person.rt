//! Who gives a line, and which version of the desk that person saw.

ghost use Rattle.std.specs.Prelude.{◌≡◌};
ghost use Rattle.desk_http.specs.Routes.{person_of, has_person, seen_of, has_seen};

use crate::lines::is_person;
use crate::version::version_of;
use bytes::Bytes;
use http::Request;

/// Who gives the request's line: `page` where the request doesn't say it.
pub(crate) fn person_of(request: &Request<Bytes>) -> &[u8]
    ensures { result.now ≡ person_of request.now }
{
    match request.headers().get("x-desk-person") {
        Some(value) => value.as_bytes(),
        None => b"page",
    }
}

pub(crate) fn has_person(request: &Request<Bytes>) -> bool
    ensures { result ≡ has_person request.now }
{
    is_person(person_of(request))
}

/// The version of the desk that the person saw, where the request says it.
pub(crate) fn seen_of(request: &Request<Bytes>) -> Option<u64>
    ensures { result ≡ seen_of request.now }
{
    match request.headers().get("x-desk-seen") {
        Some(value) => version_of(value.as_bytes()),
        None => None,
    }
}

/// Whether a request says a version, or none.
pub(crate) fn has_seen(request: &Request<Bytes>) -> bool
    ensures { result ≡ has_seen request.now }
{
    match request.headers().get("x-desk-seen") {
        Some(value) => version_of(value.as_bytes()).is_some(),
        None => true,
    }
}
