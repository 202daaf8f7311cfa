//! The page's own hosts, token and files.

ghost use Rattle.std.specs.Prelude.{◌≡◌, ◌++◌, codes, IfOk, false};
ghost use Rattle.std.specs.Fmt.{decimal};
ghost use Rattle.std.specs.Net.Socket.{socket_port};
ghost use Rattle.std.specs.Net.Text.{socket_text};
ghost use Rattle.desk_http.specs.Routes.{has_port_80, is_named, is_host_of, is_origin_of};

use crate::AssetFile;
use std::alloc::{AllocError, Global};
use std::net::SocketAddr;

/// How browsers name the page, and the token that a POST has to carry.
#[derive(Drop)]
pub struct Site {
    /// The address that the page listens at, such as `127.0.0.1:7080`.
    pub host: Vec<u8>,
    /// The same by name, such as `localhost:7080`.
    pub local: Vec<u8>,
    /// A secret of this run, of any length. The page holds it, and each POST sends it back.
    pub token: Vec<u8>,
    /// The page's files are those of a folder, which is read at each request, in place of the built-in ones.
    pub has_folder: bool,
}

/// The page's files, which the program embeds.
#[derive(Drop)]
pub struct Assets {
    /// The page in HTML, as far as the token.
    pub html_before: &'static [u8],
    /// The page in HTML, after the token.
    pub html_after: &'static [u8],
    /// The parts of its script, and its style sheet.
    pub files: Vec<AssetFile>,
}

fn has_port_80(name: &[u8]) -> bool
    ensures { result ≡ has_port_80 name.now }
{
    name.len() >= 3 && &name[name.len() - 3..] == b":80".as_slice()
}

/// Whether a host is this name, from which port 80 may be left out.
// A host without a port means port 80 (RFC 9110 section 4.2.1). If the page took any port, each program that listens on
// the machine could be a page of its origin.
fn is_named(name: &[u8], host: &[u8]) -> bool
    ensures { result ≡ is_named name.now host.now }
{
    host == name || has_port_80(name) && host == &name[..name.len() - 3]
}

impl Site {
    /// The page at this address, with this token and its built-in files.
    pub fn new(alloc: Global, address: SocketAddr, token: Vec<u8>) -> Result<Self, AllocError>
        ensures host { IfOk result (λ site. site.host.items ≡ socket_text address) }
        ensures local { IfOk result (λ site. site.local.items ≡ codes "localhost:" ++ decimal (socket_port address)) }
        ensures token { IfOk result (λ site. site.token ≡ token) }
        ensures has_folder { IfOk result (λ site. site.has_folder ≡ false) }
    {
        let port = address.port();
        let host = format!(in alloc; "{address}")?.into_bytes();
        let local = format!(in alloc; "localhost:{port}")?.into_bytes();
        Ok(Self {
            host,
            local,
            token,
            has_folder: false,
        })
    }

    pub(crate) fn is_host(&self, host: &[u8]) -> bool
        ensures { result ≡ is_host_of self.now host.now }
    {
        is_named(&self.host, host) || is_named(&self.local, host)
    }

    /// Whether a page of this origin is the page itself.
    pub(crate) fn is_origin(&self, origin: &[u8]) -> bool
        ensures { result ≡ is_origin_of self.now origin.now }
    {
        origin.len() >= 7 && &origin[..7] == b"http://".as_slice() && self.is_host(&origin[7..])
    }
}
