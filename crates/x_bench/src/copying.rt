//! The yardsticks: octets copied into fresh vectors.

use crate::datagrams::PAYLOAD;
use crate::items::PACKET;
use crate::tally::Tally;
use circular_buffer::HeapCircularBuffer;
use std::alloc::{AllocError, Global};

/// The packets that 16 windows keep.
const KEPT: usize = 16 * 512;

/// Copies a packet's octets into this many fresh vectors, and lets all of them go.
fn copy_all(
    alloc: Global,
    octets: &[u8],
    count: usize,
    tally: &mut Tally,
) -> Result<(), AllocError> {
    let mut fresh = Vec::with_capacity(alloc, count)?;
    for _copy in 0..count {
        fresh.push(Vec::from_slice(alloc, octets)?)?;
    }
    for one in &fresh {
        tally.count(one.len());
    }
    Ok(())
}

/// Copies so often into so many vectors.
pub fn copied(alloc: Global, times: u64, count: usize) -> Result<Tally, AllocError> {
    let octets = vec![in alloc; 0xee; PACKET]?;
    let mut tally = Tally::new();
    for _time in 0..times {
        copy_all(alloc, &octets, count, &mut tally)?;
    }
    Ok(tally)
}

/// Copies a packet's octets into this many fresh vectors. Each goes when as many as are kept came
/// after it.
fn keep_all(
    alloc: Global,
    octets: &[u8],
    count: usize,
    kept: &mut HeapCircularBuffer<Vec<u8>>,
    tally: &mut Tally,
) -> Result<(), AllocError> {
    for _copy in 0..count {
        let fresh = Vec::from_slice(alloc, octets)?;
        tally.count(fresh.len());
        let _oldest = kept.push_back(fresh);
    }
    Ok(())
}

/// Copies so often into so many vectors, and keeps the last ones.
pub fn kept(alloc: Global, times: u64, count: usize) -> Result<Tally, AllocError> {
    let octets = vec![in alloc; 0xee; PACKET]?;
    let mut kept = HeapCircularBuffer::with_capacity(alloc, KEPT)?;
    let mut tally = Tally::new();
    for _time in 0..times {
        keep_all(alloc, &octets, count, &mut kept, &mut tally)?;
    }
    Ok(tally)
}

/// Copies a payload into a fresh vector for a frame that waits, which goes when it is whole.
fn await_frame(
    alloc: Global,
    octets: &[u8],
    packets: usize,
    frame: &mut Vec<Vec<u8>>,
    tally: &mut Tally,
) -> Result<(), AllocError> {
    frame.push(Vec::from_slice(alloc, octets)?)?;
    tally.count(octets.len());
    if frame.len() >= packets {
        frame.clear();
    }
    Ok(())
}

/// Frames of so many sources, of which nothing waits.
fn no_frames(alloc: Global, sources: u16, packets: u16) -> Result<Vec<Vec<Vec<u8>>>, AllocError> {
    let mut frames = Vec::with_capacity(alloc, usize::from(sources))?;
    for _source in 0..sources {
        frames.push(Vec::with_capacity(alloc, usize::from(packets))?)?;
    }
    Ok(frames)
}

/// Copies so many payloads, of which each waits until its frame of so many packets is whole. The sources
/// take turns.
pub fn awaited(alloc: Global, times: u64, sources: u16, packets: u16) -> Result<Tally, AllocError> {
    let octets = vec![in alloc; 0xee; PAYLOAD]?;
    let mut frames = no_frames(alloc, sources, packets)?;
    let mut tally = Tally::new();
    for _round in 0..times / u64::from(sources.max(1)) {
        for frame in &mut frames {
            await_frame(alloc, &octets, usize::from(packets), frame, &mut tally)?;
        }
    }
    Ok(tally)
}
