//! The packets of a retransmission buffer.

ghost use Rattle.std.specs.Prelude.{◌≡◌, IfOk};

use crate::owner::Owner;
use crate::packet_bytes::PacketBytes;
use rtp_codec::Address;
use std::alloc::{AllocError, Allocator, Global};
use std::marker::Model;

/// A packet that was sent, and where it came from.
#[derive(Drop)]
pub struct Entry<A: Allocator + Copy = Global> {
    /// The sequence number on the outgoing stream.
    pub number: u16,
    /// The receiver that it went to.
    pub owner: Owner,
    /// The version of the desk that it followed, 0 to 1,048,576.
    pub version: u64,
    /// The number of the lane's item that it was sent for, from 1 on.
    pub item: u64,
    /// The SSRC of the source.
    pub source: u32,
    /// The address that the source's packet came from.
    pub address: Address,
    /// The epoch of the source's packet, from 1 on. Each initialisation of a source begins an epoch.
    pub epoch: u64,
    /// The extended sequence number of the source's packet, at least -65536.
    pub ext: i64,
    /// The octets that were sent, shared with what went out.
    pub bytes: PacketBytes<A>,
}

impl<A: Allocator + Copy> Model for Entry<A> {
    ghost use Rattle.retransmit.specs.SentPacket.{SentPacket};

    ghost Value = { SentPacket };

    ghost view = { λ e. record {
      number = e.number;
      owner = e.owner;
      version = e.version;
      item = e.item;
      source = e.source;
      address = e.address;
      epoch = e.epoch;
      ext = e.ext;
      bytes = e.bytes;
    } };
}

impl<A: Allocator + Copy> Entry<A> {
    /// A copy that shares the octets. The only error is out of memory.
    pub fn try_clone(&self) -> Result<Self, AllocError>
        ensures { IfOk result (λ entry. entry ≡ self.now) }
    {
        Ok(Self {
            number: self.number,
            owner: self.owner,
            version: self.version,
            item: self.item,
            source: self.source,
            address: self.address,
            epoch: self.epoch,
            ext: self.ext,
            bytes: self.bytes.try_clone()?,
        })
    }
}
