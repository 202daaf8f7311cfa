//! Time that passes for video sources.

ghost use Rattle.std.specs.Prelude.{◌≡◌, option_to_list, OnOk, OnErr};
ghost use Rattle.media_front.specs.Waits.{HasWaited, MayHaveWaited, HaveWaited, HaveWaitedInPart, video_origins};
ghost use Rattle.media_front.specs.inner.Origins.{origin_in};

use crate::front::MediaFront;
use crate::origins::origin_in;
use bridge_core::{Ingest, Received, WaitAnswer};
use desk_rows::{Kind, Row, Rows};
use media_workers::{Pace, PublisherName, Sink};
use rtp_codec::Address;
use std::alloc::Global;
use udp_wire::{FrontFault, Wire};

impl<N: PublisherName, P: Pace, S: Sink> MediaFront<N, P, S> {
    /// Tells the receive side that time has passed for a video source of a member at an address: call it every 20 ms
    /// for each video source of the desk, or [`MediaFront::wait_all`]. A wait asks for packets that are still missing,
    /// and gives up those that have been missing for long.
    ///
    /// The front tries to send what the receive side asks the member for, as far as its address has tokens: it costs
    /// its octets, and a wait refills none. Then every lane is given each frame that the wait sets free, with this
    /// moment. Nothing comes of a wait of any other source.
    ///
    /// On out of memory, the only error, nothing is sent, and no lane is given an item. The receive side may have had
    /// the wait.
    // It is paid for by tokens that the member's datagrams earned, so one law bounds all control that an address is
    // sent, however much time passes.
    pub fn wait<W: Wire>(
        &mut self,
        alloc: Global,
        rows: &Rows,
        from: &Address,
        ssrc: u32,
        moment: u64,
        wire: &mut W,
    ) -> Result<(), FrontFault>
        ensures waited { OnOk result (HasWaited rows.now (record { address = from.now; ssrc = ssrc }) moment
            self.old self.new (W.attempts wire.old) (W.attempts wire.new)) }
        ensures err { OnErr result (self.new ≡ record self.old { ingress = self.new.ingress }) }
        ensures unsent { OnErr result (W.attempts wire.new ≡ W.attempts wire.old) }
        ensures ingress { OnErr result (MayHaveWaited rows.now (record { address = from.now; ssrc = ssrc }) moment
            self.old.ingress self.new.ingress) }
        ensures same { self.new ≡ record self.old {
          ingress = self.new.ingress;
          feed = self.new.feed;
          limiter = self.new.limiter;
          limited = self.new.limited;
        } }
        ensures asker { self.new.ingress.asker ≡ self.old.ingress.asker }
    {
        let answer = self.ingress.wait(alloc, rows, from, ssrc, moment)?;
        let WaitAnswer { up, items } = answer;
        // A wait is no datagram: it refills as little as a stranger's.
        let received = Received::silence(alloc, from, moment);
        let ingest = Ingest {
            received,
            up,
            items,
        };
        self.handle(alloc, ingest, wire)?;
        Ok(())
    }

    /// Tells the receive side that time has passed for the source in a row, if it is video and its member is there.
    fn wait_row<W: Wire>(
        &mut self,
        alloc: Global,
        rows: &Rows,
        row: &Row,
        now: u64,
        wire: &mut W,
    ) -> Result<(), FrontFault>
        ensures waited { OnOk result (HaveWaited rows.now now (option_to_list (origin_in rows.now row.now))
            self.old self.new (W.attempts wire.old) (W.attempts wire.new)) }
        ensures err { OnErr result (HaveWaitedInPart rows.now now (option_to_list (origin_in rows.now row.now))
            self.old self.new (W.attempts wire.old) (W.attempts wire.new)) }
        ensures same { self.new ≡ record self.old {
          ingress = self.new.ingress;
          feed = self.new.feed;
          limiter = self.new.limiter;
          limited = self.new.limited;
        } }
        ensures asker { self.new.ingress.asker ≡ self.old.ingress.asker }
    {
        match origin_in(rows, row) {
            None => Ok(()),
            Some((address, ssrc)) => self.wait(alloc, rows, &address, ssrc, now, wire),
        }
    }

    /// Tells the receive side that time has passed for each video source of the desk, once and by SSRC, as
    /// [`MediaFront::wait`] does. Call it where a tick was due.
    ///
    /// On out of memory, the only error, the sources before the one that it came at have waited. For that one nothing
    /// was sent or given.
    // Once a round, however many ticks were due. What is missing in a late round waits in the socket, so nothing is
    // given up that the bridge hadn't time to read.
    pub fn wait_all<W: Wire>(
        &mut self,
        alloc: Global,
        rows: &Rows,
        now: u64,
        wire: &mut W,
    ) -> Result<(), FrontFault>
        ensures waited { OnOk result (HaveWaited rows.now now (video_origins rows.now)
            self.old self.new (W.attempts wire.old) (W.attempts wire.new)) }
        ensures err { OnErr result (HaveWaitedInPart rows.now now (video_origins rows.now)
            self.old self.new (W.attempts wire.old) (W.attempts wire.new)) }
        ensures same { self.new ≡ record self.old {
          ingress = self.new.ingress;
          feed = self.new.feed;
          limiter = self.new.limiter;
          limited = self.new.limited;
        } }
        ensures asker { self.new.ingress.asker ≡ self.old.ingress.asker }
    {
        for row in rows.others_of(Kind::Source) {
            self.wait_row(alloc, rows, row, now, wire)?;
        }
        Ok(())
    }
}
