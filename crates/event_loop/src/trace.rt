//! What a front did, on its way to a trace.

ghost use Rattle.std.specs.Prelude.{◌≡◌, true, false, None, IfOk, is_some, map, option_map, option_to_list};
ghost use Rattle.picture_requests.specs.Sources.{member_address};
ghost use Rattle.media_front.specs.Waits.{video_origins};
ghost use Rattle.media_front.specs.inner.Origins.{origin_in};
ghost use Rattle.event_loop.specs.Traced.{front_told, IsTraced, IsTracedIf, took, reported, asked, AreWaits};

use desk_rows::{Kind, Row, Rows};
use ingress::Received;
use media_front::origin_in;
use picture_requests::VideoSource;
use rtp_codec::Address;
use std::alloc::{AllocError, Global};
use std::marker::Model;
use trace_ring::TraceSender;

/// What a front did, at a moment in nanoseconds since 1970.
#[derive(Drop)]
pub enum FrontDeed {
    /// It took in a datagram.
    Took {
        /// When it came.
        moment: u64,
        /// Where it came from.
        from: Address,
        /// Its octets.
        octets: Vec<u8>,
    },
    /// It let time pass for a video source.
    Waited {
        /// Until when.
        moment: u64,
        /// The address of the source's member.
        from: Address,
        /// The SSRC of the source.
        ssrc: u32,
    },
    /// It made the reports.
    Reported {
        /// When.
        moment: u64,
    },
    /// It asked a sender for a picture, of its own accord.
    Asked {
        /// The sender.
        to: Address,
        /// The SSRC of the source.
        ssrc: u32,
    },
}

/// A deed of a front, and the version of the desk at which it was done.
#[derive(Drop)]
pub struct FrontTold {
    /// The version.
    pub version: u64,
    /// What was done.
    pub deed: FrontDeed,
}

/// The trace of a front. Where there is none, or it was given up, nothing is copied.
///
/// Contracts see the version of the round, and all that was told, or `None`: there is no trace, or it was given up.
#[derive(Drop)]
pub struct FrontTrace {
    sender: TraceSender<FrontTold>,
    /// The version of the round.
    version: u64,
}

impl Model for FrontTrace {
    ghost use Rattle.std.specs.Prelude.{map, option_map};
    ghost use Rattle.event_loop.specs.Traced.{FrontTraceOf, front_told};

    ghost Value = { FrontTraceOf };

    ghost view = { λ t. record { version = t.version; told = option_map (map front_told) t.sender } };
}

/// A copy of these octets.
fn copied(alloc: Global, octets: &[u8]) -> Result<Vec<u8>, AllocError>
    ensures { IfOk result (λ copy. copy.items ≡ octets.now) }
{
    let mut copy = Vec::with_capacity(alloc, octets.len())?;
    copy.extend_from_slice(octets)?;
    Ok(copy)
}

impl FrontTrace {
    /// One that hands on what it is told.
    pub fn new(sender: TraceSender<FrontTold>) -> Self
        ensures { result ≡ record { version = 0; told = option_map (map front_told) sender } }
    {
        Self { sender, version: 0 }
    }

    /// None.
    pub fn off() -> Self
        ensures { result ≡ record { version = 0; told = None } }
    {
        Self::new(TraceSender::off())
    }

    /// Whether there is a trace that was not given up.
    pub(crate) fn is_on(&self) -> bool
        ensures { result ≡ is_some self.now.told }
    {
        self.sender.is_on()
    }

    /// The rounds from here on are of this version of the desk.
    pub(crate) fn set_version(&mut self, version: u64)
        ensures { self.new ≡ record self.old { version = version } }
    {
        self.version = version;
    }

    /// Tells a deed.
    fn tell(&mut self, deed: FrontDeed)
        ensures { IsTraced (front_told (record { version = self.old.version; deed = deed })) self.old self.new }
    {
        let version = self.version;
        self.sender.send(FrontTold { version, deed });
    }

    /// Tells that a datagram of these octets was taken in. Where memory is refused for them, the trace is given up.
    pub(crate) fn tell_datagram(&mut self, alloc: Global, received: &Received, octets: &[u8])
        ensures { IsTraced (took self.old.version received.now.moment received.now.from octets.now)
            self.old self.new }
    {
        if !self.is_on() {
            return;
        }
        let (moment, from) = (received.moment, received.from);
        match copied(alloc, octets) {
            Ok(octets) => self.tell(FrontDeed::Took {
                moment,
                from,
                octets,
            }),
            Err(_) => self.sender.give_up(),
        }
    }

    /// Tells that the reports were made, if they were.
    pub(crate) fn tell_report(&mut self, is_made: bool, moment: u64)
        ensures { IsTracedIf is_made (reported self.old.version moment) self.old self.new }
    {
        if is_made {
            self.tell(FrontDeed::Reported { moment });
        }
    }

    /// Tells that the sender of a source was asked for a picture, if it was.
    pub(crate) fn tell_picture(&mut self, is_asked: bool, source: &VideoSource)
        ensures { IsTracedIf is_asked
            (asked self.old.version (member_address source.now) source.now.ssrc) self.old self.new }
    {
        if is_asked {
            let to = source.address();
            let ssrc = source.ssrc;
            self.tell(FrontDeed::Asked { to, ssrc });
        }
    }

    /// Tells that time passed for the source in a row, if it is video and its member is there.
    fn tell_wait(&mut self, rows: &Rows, row: &Row, moment: u64)
        ensures { AreWaits moment (option_to_list (origin_in rows.now row.now)) self.old self.new }
    {
        if let Some((from, ssrc)) = origin_in(rows, row) {
            self.tell(FrontDeed::Waited { moment, from, ssrc });
        }
    }

    /// Tells that time passed for each video source of the desk, by SSRC.
    fn tell_each_wait(&mut self, rows: &Rows, moment: u64)
        ensures { AreWaits moment (video_origins rows.now) self.old self.new }
    {
        for row in rows.others_of(Kind::Source) {
            self.tell_wait(rows, row, moment);
        }
    }

    /// Tells that time passed for each video source of the desk, by SSRC, if it did.
    pub(crate) fn tell_waits(&mut self, has_passed: bool, rows: &Rows, moment: u64)
        ensures told { has_passed ≡ true → is_some self.old.told ≡ true
            → AreWaits moment (video_origins rows.now) self.old self.new }
        ensures off { is_some self.old.told ≡ false → self.new ≡ self.old }
        ensures none { has_passed ≡ false → self.new ≡ self.old }
    {
        if has_passed && self.is_on() {
            self.tell_each_wait(rows, moment);
        }
    }
}
