//! What the model does with datagrams.

use crate::datagram::Datagram;
use crate::one_thread::OneThread;
use bridge_core::{Ingest, Item, Outcome};
use desk_rows::Media;
use picture_requests::VideoSource;
use rate_limiter::Quota;
use rtp_codec::{Address, read};
use std::alloc::AllocError;
use topology::source_from;

/// Without a tick for longer than this many nanoseconds the bridge stood still.
const STOOD_STILL: u64 = 1_000_000_000;

/// Whether a datagram with this outcome came from a member.
fn is_from_member(outcome: Outcome) -> bool {
    !matches!(
        outcome,
        Outcome::TooLong
            | Outcome::Neither
            | Outcome::BadRtp(_)
            | Outcome::BadRtcp(_)
            | Outcome::Unknown
    )
}

impl OneThread {
    /// Takes in a datagram.
    pub fn datagram(&mut self, datagram: &Datagram, moment: u64) -> Result<(), AllocError> {
        if moment.saturating_sub(self.ticked) > STOOD_STILL {
            self.tick(moment)?;
        }
        let from = datagram.address;
        let octets = &datagram.octets;
        let rows = self.desk.core.rows();
        let ingest = self
            .ingress
            .datagram(self.alloc, rows, &from, moment, octets)?;
        let Ingest {
            received,
            up,
            items,
        } = ingest;
        let is_new = matches!(received.outcome, Outcome::Accepted { .. }) && received.begins;
        if is_from_member(received.outcome) {
            self.limiter.refill(&from, octets.len() as u64)?;
        }
        self.handle(&from, moment, up, items)?;
        if is_new {
            self.ask_first(&from, octets, moment)?;
        }
        Ok(())
    }

    /// Asks the sender of a new video source for a picture.
    fn ask_first(&mut self, from: &Address, octets: &[u8], moment: u64) -> Result<(), AllocError> {
        let Ok(view) = read(octets) else {
            return Ok(());
        };
        let Some(source) = source_from(self.desk.core.rows(), view.ssrc, from) else {
            return Ok(());
        };
        if !source.media.is_same(Media::Video) {
            return Ok(());
        }
        let source = VideoSource::at(source.ssrc, from);
        self.pictures.want(self.alloc, &source, moment)?;
        self.ask_picture(&source, moment)
    }

    /// Asks the sender of a video source for a picture, if its address has tokens.
    pub fn ask_picture(&mut self, source: &VideoSource, now: u64) -> Result<(), AllocError> {
        let (to, octets) = self
            .ingress
            .picture_request(self.alloc, &source.address(), source.ssrc)?;
        if self.send_paid(to, octets)? {
            self.pictures.asked(source, now);
        }
        Ok(())
    }

    /// Sends a datagram, if its address has tokens for it. Returns whether it has.
    fn send_paid(&mut self, to: Address, octets: Vec<u8>) -> Result<bool, AllocError> {
        let is_paid = self.limiter.spend(&to, octets.len() as u64);
        if is_paid {
            self.tried.push(Datagram::new(to, octets))?;
        }
        Ok(is_paid)
    }

    /// Does what the receive side answered to an address: sends what is paid for, and gives what is granted of the
    /// items.
    pub fn handle(
        &mut self,
        from: &Address,
        moment: u64,
        up: Vec<(Address, Vec<u8>)>,
        items: Vec<Item>,
    ) -> Result<(), AllocError> {
        for (to, octets) in up {
            self.send_paid(to, octets)?;
        }
        for item in items {
            if let Some(item) = self.granted(from, moment, item)? {
                self.give(&item)?;
            }
        }
        Ok(())
    }

    /// What is granted of an item that came from an address.
    fn granted(
        &mut self,
        from: &Address,
        moment: u64,
        item: Item,
    ) -> Result<Option<Item>, AllocError> {
        let limiter = &mut self.limiter;
        let mut item = item;
        let granted = match &mut item {
            Item::Nack { numbers, .. } => {
                let count = limiter.ask(from, moment, Quota::Numbers, numbers.len() as u64)?;
                numbers.truncate(usize::try_from(count).unwrap_or(0));
                count
            }
            Item::Block { .. } => limiter.ask(from, moment, Quota::Items, 1)?,
            Item::Pli { .. } => {
                let is_paid = limiter.spend(from, self.cost);
                let count = limiter.ask(from, moment, Quota::Items, 1)?;
                if is_paid { count } else { 0 }
            }
            _ => 1,
        };
        Ok(if granted == 0 { None } else { Some(item) })
    }
}
