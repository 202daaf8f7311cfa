//! A bridge of new lanes.

ghost use Rattle.std.specs.Prelude.{◌≡◌, All};
ghost use Rattle.published_desk.specs.Published.{new_reader};

use crate::lanes::lanes;
use crate::rings::outfits;
use crate::running::Running;
use crate::told::OfBrand;
use media_workers::Pace;
use operator_desk::DeskBrand;
use published_desk::LaneReader;
use std::alloc::Global;
use std::sync::Wait;
use std::thread::Threads;

/// How many egresses a lane's ring holds.
const PLACES: usize = 4_096;

/// Starts a lane for each reader, each with its pace and a ring of 4,096 places.
pub fn begun<
    H: DeskBrand + Send + Sync + 'static,
    P: Pace + Send + Drop + 'static,
    R: Threads + Wait + Copy + Send + 'static,
>(rt: &R, alloc: Global, readers: Vec<LaneReader>, paces: Vec<P>) -> Option<Running<OfBrand<H>, P>>
    requires { All (λ reader. reader ≡ new_reader H.publisher H.start) readers.items }
{
    begun_with(rt, alloc, readers, paces, PLACES)
}

/// The same with rings of so many places.
pub fn begun_with<
    H: DeskBrand + Send + Sync + 'static,
    P: Pace + Send + Drop + 'static,
    R: Threads + Wait + Copy + Send + 'static,
>(
    rt: &R,
    alloc: Global,
    readers: Vec<LaneReader>,
    paces: Vec<P>,
    places: usize,
) -> Option<Running<OfBrand<H>, P>>
    requires { All (λ reader. reader ≡ new_reader H.publisher H.start) readers.items }
{
    let lanes = lanes::<H>(alloc, readers).ok()?;
    let (outfits, rings) = outfits(alloc, paces, places).ok()?;
    match Running::start(rt, alloc, lanes, outfits, rings) {
        Ok(running) => Some(running),
        Err(_) => None,
    }
}
