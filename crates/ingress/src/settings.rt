//! The settings of the bridge's own RTCP.

ghost use Rattle.std.specs.Prelude.{◌≡◌, IfOk};
ghost use Rattle.ingress.specs.Names.{is_name};

use bytes::Bytes;
use std::alloc::{AllocError, Allocator, Global};

/// The most octets of a canonical name.
const NAME_OCTETS: usize = 255;

/// How the bridge presents itself in RTCP.
#[derive(Drop)]
pub struct Settings<A: Allocator + Copy = Global> {
    /// The SSRC of the bridge itself.
    pub bridge_ssrc: u32,
    /// The canonical name of the bridge, 1 to 255 octets (CNAME, RFC 3550 section 6.5.1).
    pub cname: Bytes<A>,
}

impl<A: Allocator + Copy> Settings<A> {
    /// Whether the canonical name has 1 to 255 octets.
    pub fn is_good(&self) -> bool
        ensures { result ≡ is_name self.now.cname }
    {
        let octets = self.cname.len();
        0 < octets && octets <= NAME_OCTETS
    }

    /// A copy that shares the octets of the name. The only error is out of memory.
    pub fn try_clone(&self) -> Result<Self, AllocError>
        ensures { IfOk result (λ s. (s.bridge_ssrc ≡ self.now.bridge_ssrc) × (s.cname ≡ self.now.cname)) }
    {
        let cname = self.cname.clone()?;
        Ok(Self {
            bridge_ssrc: self.bridge_ssrc,
            cname,
        })
    }
}
