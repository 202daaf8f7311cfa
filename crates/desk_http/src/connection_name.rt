//! The line that gives a connection to the bridge a name, and what the bridge answers to it.

ghost use Rattle.std.specs.Prelude.{◌≡◌, ◌++◌, IfOk, codes, option_map};
ghost use Rattle.desk_http.specs.BridgeConnections.{naming_line, is_naming, is_repeated, named_by};
ghost use Rattle.desk_http.specs.BridgeRequests.{before_last_lf};

use crate::bridge_request::before_last_lf;
use std::alloc::{AllocError, Global};

/// The line that gives the connection this name: `as NAME`.
pub(crate) fn naming_line(alloc: Global, name: &[u8]) -> Result<Vec<u8>, AllocError>
    ensures { IfOk result (λ line. line.items ≡ naming_line name.now) }
{
    let mut line = Vec::from_slice(alloc, b"as ")?;
    line.extend_from_slice(name)?;
    Ok(line)
}

/// Whether a line gives the connection a name.
pub fn is_naming(line: &[u8]) -> bool
    ensures { result ≡ is_naming line.now }
{
    line.len() >= 3 && &line[..3] == b"as ".as_slice()
}

/// Whether a reply repeats the line.
fn is_repeated(line: &[u8], text: Option<&[u8]>) -> bool
    ensures { result ≡ is_repeated line.now (option_map (λ x. x.now) text.entry) }
{
    match text {
        Some(text) => text == line,
        None => false,
    }
}

/// Whether the connection has its name after the reply to a line.
pub(crate) fn named_by(is_named: bool, line: &[u8], received: &[u8]) -> bool
    ensures { result ≡ named_by is_named line.now received.now }
{
    if is_naming(line) {
        is_repeated(line, before_last_lf(received))
    } else {
        is_named
    }
}
