//! What is counted of each outgoing stream.

ghost use Rattle.std.specs.Prelude.{◌≡◌, ◌-◌, ◌≤◌, nat_eq, drop, length, map, IfOk, OnOk, None};
ghost use Rattle.std.specs.List.{IsDistinct};
ghost use Rattle.std.specs.Map.{lookup, keys_of};
ghost use Rattle.lane_wire.specs.Streams.{most_streams, no_streams, numbers_in};
ghost use Rattle.lane_wire.specs.Streams.{HasCounted, HasNews, IsCounted};
ghost use Rattle.lane_wire.specs.inner.Places.{Stands};

use crate::fault::SendFault;
use crate::kept_streams::{KeptStreams, begin, place_of, renew};
use crate::stream_numbers::{KeptStream, StreamNews, StreamNumbers, news_of};
use bridge_core::Egress;
use indexmap::IndexMap;
use std::alloc::{AllocError, Global};
use std::marker::Model;

/// For how many streams there is memory from the start.
const FIRST_STREAMS: usize = 16;

/// What is counted of each outgoing stream, and what its receiver reported last. It keeps 5,120 streams, those that
/// were sent or reported of last.
///
/// A lane sends to the same streams in the same order again and again. So most news are of the stream of the last ones,
/// or of the one behind it, and are counted without a look-up.
///
/// Only a stream that isn't kept takes memory. Where that is refused, its packet or report is left out, and counted.
/// Contracts see the streams by their SSRCs, the one that was counted first before the others.
#[derive(Drop)]
pub struct StreamCounts {
    streams: KeptStreams,
    /// How many news were counted.
    news: u64,
    left_out: u64,
    /// Where the stream of the last news stood.
    place: usize,
}

impl Model for StreamCounts {
    ghost use Rattle.std.specs.Prelude.{◌≤◌, length};
    ghost use Rattle.lane_wire.specs.Streams.{StreamsOf, most_streams};

    ghost Value = { StreamsOf };

    ghost view = { λ table. record {
      entries = table.streams.entries;
      news = table.news;
      left_out = table.left_out;
    } };

    ghost invariant = { λ table. length table.streams.entries ≤ most_streams };
}

impl StreamCounts {
    /// Nothing was counted. The only error is out of memory.
    pub fn new(alloc: Global) -> Result<Self, AllocError>
        ensures { IfOk result (λ table. table ≡ no_streams) }
    {
        Ok(Self {
            streams: IndexMap::with_capacity(alloc, FIRST_STREAMS)?,
            news: 0,
            left_out: 0,
            place: 0,
        })
    }

    /// Counts what is new of the stream at a place.
    fn renew(&mut self, place: usize, ssrc: u32, news: StreamNews)
        requires { Stands ssrc place self.old.entries }
        ensures { HasCounted ssrc news self.old self.new }
    {
        self.place = place;
        self.news = self.news.saturating_add(1);
        renew(&mut self.streams, place, ssrc, news, self.news);
    }

    /// Counts the first news of a stream.
    fn begin(&mut self, ssrc: u32, news: StreamNews)
        requires { lookup (nat_eq ssrc) self.old.entries ≡ None }
        ensures { HasNews ssrc news self.old self.new }
    {
        let number = self.news.saturating_add(1);
        let kept = KeptStream::first(news, number);
        match begin(&mut self.streams, ssrc, kept) {
            Ok(()) => self.news = number,
            Err(_) => self.left_out = self.left_out.saturating_add(1),
        }
    }

    /// Counts what is new of a stream.
    fn add(&mut self, ssrc: u32, news: StreamNews)
        ensures { HasNews ssrc news self.old self.new }
    {
        match place_of(&self.streams, self.place, ssrc) {
            Some(place) => self.renew(place, ssrc, news),
            None => self.begin(ssrc, news),
        }
    }

    /// Counts what a lane sent; `answer`: what came of the last try. Of a note it keeps the report.
    pub fn count(&mut self, egress: &Egress, answer: Result<(), SendFault>)
        ensures { IsCounted egress.now answer self.old self.new }
    {
        if let Some((ssrc, news)) = news_of(egress, answer) {
            self.add(ssrc, news);
        }
    }

    /// How many streams are kept.
    pub fn len(&self) -> usize
        ensures len { result ≡ length self.now.entries }
        ensures few { result ≤ most_streams }
        ensures once { IsDistinct nat_eq (keys_of self.now.entries) }
    {
        self.streams.len()
    }

    /// Copies what is kept, in the order in which the streams were counted first: of so many streams at most, of those
    /// that began last. The only error is out of memory.
    pub fn copy(&self, most: usize, out: &mut Vec<(u32, StreamNumbers)>) -> Result<(), AllocError>
        ensures { OnOk result (out.new.items
            ≡ map numbers_in (drop (length self.now.entries - most) self.now.entries)) }
    {
        out.clear();
        let skipped = self.streams.len().saturating_sub(most);
        let (_, last) = self.streams.as_slice().split_at(skipped);
        for (ssrc, kept) in last.iter() {
            out.push((*ssrc, kept.numbers))?;
        }
        Ok(())
    }

    /// How many packets and reports were left out since memory was refused.
    pub fn left_out(&self) -> u64
        ensures { result ≡ self.now.left_out }
    {
        self.left_out
    }
}
