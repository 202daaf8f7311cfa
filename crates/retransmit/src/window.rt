//! The retransmission buffer of one stream.

ghost use Rattle.std.specs.Prelude.{◌≡◌, [], ◌∷◌, ◌++◌, IfOk, option_copied};
ghost use Rattle.retransmit.specs.declared.owner.Owner.{Owner};
ghost use Rattle.retransmit.specs.Window.{window_size, latest, resend_of, MayFollow};
ghost use Rattle.retransmit.specs.inner.ToOwner.{to_owner};

use crate::entry::Entry;
use crate::owner::Owner;
use circular_buffer::HeapCircularBuffer;
use rtp_codec::seq_distance;
use std::alloc::{AllocError, Allocator, Global};
use std::marker::Model;

/// The number of packets that can be sent again.
const CAPACITY: usize = 512;

/// The last 512 packets of an outgoing stream. Only [`new`](Self::new) takes memory.
#[derive(Drop)]
pub struct Window<A: Allocator + Copy = Global> {
    ring: HeapCircularBuffer<Entry<A>, A>,
}

impl<A: Allocator + Copy> Model for Window<A> {
    ghost use Rattle.std.specs.Prelude.{List};
    ghost use Rattle.retransmit.specs.SentPacket.{SentPacket};
    ghost use Rattle.retransmit.specs.inner.IsSound.{IsSound};

    ghost Value = { List SentPacket };

    ghost view = { λ window. window.ring.items };

    ghost invariant = { λ window. IsSound window.ring.items window.ring.capacity };
}

impl<A: Allocator + Copy> Window<A> {
    /// An empty window. It allocates for 512 packets. The only error is out of memory.
    pub fn new(alloc: A) -> Result<Self, AllocError>
        ensures { IfOk result (λ window. window ≡ []) }
    {
        let ring = HeapCircularBuffer::with_capacity(alloc, CAPACITY)?;
        Ok(Self { ring })
    }

    /// Keeps a packet that was sent. A full window drops its oldest packet.
    ///
    /// Its number must follow the last one's: 0 follows 65535.
    pub fn push(&mut self, entry: Entry<A>)
        requires { MayFollow self.old entry }
        ensures { self.new ≡ latest window_size (self.old ++ entry ∷ []) }
    {
        self.ring.push_back(entry);
    }

    /// The packet of this number, for any owner. It looks at one packet.
    fn numbered(&self, number: u16) -> Option<&Entry<A>>
        ensures { (owner : Owner) → resend_of number owner self.now ≡ to_owner owner (option_copied result) }
    {
        let oldest = self.ring.front()?;
        let place = seq_distance(oldest.number, number);
        self.ring.get(usize::from(place))
    }

    /// The packet that went to this owner under this number, if it is among the last 512.
    ///
    /// Nobody but the owner gets it.
    pub fn find(&self, number: u16, owner: &Owner) -> Option<&Entry<A>>
        ensures { option_copied result ≡ resend_of number owner.now self.now }
    {
        let entry = self.numbered(number)?;
        if entry.owner == *owner {
            Some(entry)
        } else {
            None
        }
    }
}
