//! RTCP packets.

use crate::description::SdesChunk;
use crate::nack::Nack;
use crate::report::{ReceiverReport, SenderReport};
use std::alloc::{Allocator, Global};

/// Says that sources leave (BYE, RFC 3550 section 6.6).
#[derive(Drop)]
pub struct Bye<A: Allocator = Global> {
    /// The sources that leave, at most 31.
    pub ssrcs: Vec<u32, A>,
    /// The reason, at most 255 octets. An empty reason differs from none.
    pub reason: Option<Vec<u8, A>>,
}

/// A packet that an application defines (APP, RFC 3550 section 6.7).
#[derive(Drop)]
pub struct App<A: Allocator = Global> {
    /// The subtype, at most 31.
    pub subtype: u8,
    /// The source that sends it.
    pub ssrc: u32,
    /// The application's name for it, usually in ASCII.
    pub name: [u8; 4],
    /// The application's data: whole words of four octets.
    pub content: Vec<u8, A>,
}

/// A picture loss indication (PLI, RFC 4585 section 6.3.1).
#[derive(Clone, Copy, PartialEq, Eq)]
pub struct Pli {
    /// The SSRC that asks.
    pub sender: u32,
    /// The SSRC whose picture was lost.
    pub media: u32,
}

/// A packet without a variant of its own: another type, or another format of feedback.
#[derive(Drop)]
pub struct Other<A: Allocator = Global> {
    /// The packet type, 0 to 255.
    pub pt: u8,
    /// The count, or the format of feedback; at most 31.
    pub count: u8,
    /// The octets behind the common header: whole words of four octets.
    pub body: Vec<u8, A>,
}

/// An RTCP packet (RFC 3550 section 6, RFC 4585 section 6).
#[derive(Drop)]
pub enum Rtcp<A: Allocator = Global> {
    Sender(SenderReport<A>),
    Receiver(ReceiverReport<A>),
    /// Source descriptions, one chunk a source; at most 31 chunks.
    Sdes(Vec<SdesChunk<A>, A>),
    Bye(Bye<A>),
    App(App<A>),
    Nack(Nack<A>),
    Pli(Pli),
    Other(Other<A>),
}
