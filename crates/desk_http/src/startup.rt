//! What the page starts with: its addresses, its token and the limits of a request.

ghost use Rattle.std.specs.Prelude.{◌≡◌, ◌+◌, ◌++◌, ◌<◌, IfOk, OnOk, IfSome, IfNone};
ghost use Rattle.desk_http.specs.Lines.{longest_change};
ghost use Rattle.desk_http.specs.Startup.{IsOnLoopback, hex_digit, hex_octet, hex_text};

use crate::MAX_CHANGE;
use http_server::Config;
use std::alloc::{AllocError, Global};
use std::net::SocketAddrV4;

/// Addresses of loopback, which no packet from another machine reaches.
#[derive(Clone, Copy)]
pub struct Addresses {
    /// Where the bridge takes operators.
    pub bridge: SocketAddrV4,
    /// Where browsers connect.
    pub listen: SocketAddrV4,
}

/// These addresses, if both are of loopback.
pub fn loopback_addresses(bridge: SocketAddrV4, listen: SocketAddrV4) -> Option<Addresses>
    ensures same { IfSome result (λ a. (a.bridge ≡ bridge) × (a.listen ≡ listen)) }
    ensures some { IfSome result (λ a. IsOnLoopback a.bridge × IsOnLoopback a.listen) }
    ensures none { IfNone result (¬ (IsOnLoopback bridge × IsOnLoopback listen)) }
{
    if bridge.ip().is_loopback() && listen.ip().is_loopback() {
        Some(Addresses { bridge, listen })
    } else {
        None
    }
}

/// The limits of a request. A body of one octet more than a change of names is still read, so that the page refuses it.
// The server keeps a body until it is whole, so only its own limit bounds the memory. A longer one gets 413 before the
// page routes it.
pub fn request_limits() -> Config
    ensures body { result.max_body_len ≡ longest_change + 1 }
    ensures head { result.limits.max_head_len ≡ 16384 }
{
    let mut config = Config::default();
    config.max_body_len = MAX_CHANGE + 1;
    config
}

fn hex_digit(value: u8) -> u8
    requires { value < 16 }
    ensures { result ≡ hex_digit value }
{
    b"0123456789abcdef"[value as usize]
}

fn append_hex_octet(text: &mut Vec<u8>, octet: u8) -> Result<(), AllocError>
    ensures { OnOk result (text.new.items ≡ text.old.items ++ hex_octet octet) }
{
    text.extend_from_slice(&[hex_digit(octet / 16), hex_digit(octet % 16)])
}

fn append_hex(text: &mut Vec<u8>, octets: &[u8]) -> Result<(), AllocError>
    ensures { OnOk result (text.new.items ≡ text.old.items ++ hex_text octets.now) }
{
    for octet in octets {
        append_hex_octet(text, *octet)?;
    }
    Ok(())
}

/// A secret of 32 hex digits, from 16 octets that nobody can guess.
pub fn token(alloc: Global, octets: [u8; 16]) -> Result<Vec<u8>, AllocError>
    ensures { IfOk result (λ token. token.items ≡ hex_text octets) }
{
    let mut digits = Vec::new(alloc);
    append_hex(&mut digits, &octets)?;
    Ok(digits)
}
