//! Samples that wait to be taken.

ghost use Rattle.std.specs.Prelude.{◌≡◌, pos, [], ◌∷◌, IfSome};
ghost use Rattle.playout.specs.Playouts.{PutOf, TakeAll, Has};
ghost use Rattle.worked_media.specs.Sent.{owner};

use playout::{PlacedSamples, Playout, Playouts};
use rtp_codec::Address;
use std::alloc::Global;

/// The first samples are all kept. At 50 samples a second 60 ms are 3 places.
pub fn the_first_samples_are_kept(alloc: Global) -> Option<PlacedSamples>
    ensures { IfSome result (λ placed. placed ≡ PlacedSamples.Kept 2) }
{
    let Ok(mut playout) = Playout::new(alloc, 50) else {
        return None;
    };
    Some(playout.put(1000, &[5, 6]))
}

/// They come 60 ms later: of the next four places the last one has a sample.
pub fn they_come_60_ms_later(alloc: Global) -> Option<u32>
    ensures { IfSome result (λ count. count ≡ 1) }
{
    let Ok(mut playout) = Playout::new(alloc, 50) else {
        return None;
    };
    playout.put(1000, &[5, 6]);
    Some(playout.take(&mut [0; 4]))
}

/// What is put again is not counted.
pub fn a_place_keeps_its_sample(alloc: Global) -> Option<PlacedSamples>
    ensures { IfSome result (λ placed. placed ≡ PlacedSamples.Kept 1) }
{
    let Ok(mut playout) = Playout::new(alloc, 50) else {
        return None;
    };
    playout.put(1000, &[5, 6]);
    Some(playout.put(1001, &[7, 8]))
}

/// What was taken is too late.
pub fn what_was_taken_is_late(alloc: Global) -> Option<PlacedSamples>
    ensures { IfSome result (λ placed. placed ≡ PlacedSamples.Late) }
{
    let Ok(mut playout) = Playout::new(alloc, 50) else {
        return None;
    };
    playout.put(1000, &[5, 6]);
    playout.take(&mut [0; 5]);
    Some(playout.put(1000, &[5, 6]))
}

/// Places within a second are kept, up to the last one.
pub fn a_second_ahead_is_kept(alloc: Global) -> Option<PlacedSamples>
    ensures { IfSome result (λ placed. placed ≡ PlacedSamples.Kept 2) }
{
    let Ok(mut playout) = Playout::new(alloc, 50) else {
        return None;
    };
    playout.put(1000, &[5, 6]);
    Some(playout.put(1045, &[7, 8]))
}

/// One place further begins anew.
pub fn more_than_a_second_ahead_begins_anew(alloc: Global) -> Option<PlacedSamples>
    ensures { IfSome result (λ placed. placed ≡ PlacedSamples.Reset) }
{
    let Ok(mut playout) = Playout::new(alloc, 50) else {
        return None;
    };
    playout.put(1000, &[5, 6]);
    Some(playout.put(1046, &[7, 8]))
}

/// 20 ms at 44100 Hz are 882 samples.
pub fn a_tick_at_44100_is_kept(alloc: Global) -> Option<PlacedSamples>
    ensures { IfSome result (λ placed. placed ≡ PlacedSamples.Kept 882) }
{
    let Ok(mut playout) = Playout::new(alloc, 44_100) else {
        return None;
    };
    Some(playout.put(1000, &[5; 882]))
}

/// Sources of one SSRC at two addresses have a playout each: of two samples, and of one. A third address, from which
/// nothing came, has none.
pub fn each_address_has_its_own(playouts: &Playouts, address: &Address) -> u32
    requires had { Has playouts.now
        (PutOf 21 (owner 1 7).address 50 1000 (pos 5 ∷ pos 6 ∷ [])
        ∷ PutOf 21 (owner 2 8).address 50 1000 (pos 9 ∷ [])
        ∷ TakeAll ∷ TakeAll ∷ TakeAll ∷ []) }
    ensures two { address.now ≡ (owner 1 7).address → result ≡ 2 }
    ensures one { address.now ≡ (owner 2 8).address → result ≡ 1 }
    ensures none { address.now ≡ (owner 3 9).address → result ≡ 0 }
{
    playouts.peek(21, address, 50, &mut [0; 4])
}

/// At 44100 Hz 60 ms are 2646 places: three ticks of 882 samples.
pub fn three_ticks_come_first_at_44100(playouts: &Playouts, address: &Address) -> u32
    requires address { address.now ≡ (owner 1 7).address }
    ensures early { Has playouts.now (PutOf 21 (owner 1 7).address 44100 1000 (pos 5 ∷ []) ∷ TakeAll ∷ TakeAll ∷ [])
        → result ≡ 0 }
    ensures then { Has playouts.now
        (PutOf 21 (owner 1 7).address 44100 1000 (pos 5 ∷ []) ∷ TakeAll ∷ TakeAll ∷ TakeAll ∷ [])
        → result ≡ 1 }
{
    playouts.peek(21, address, 44_100, &mut [0; 882])
}

/// Samples of another rate begin the playout anew, and the former ones are gone.
pub fn another_rate_begins_anew(playouts: &Playouts, address: &Address) -> u32
    requires address { address.now ≡ (owner 1 7).address }
    requires had { Has playouts.now
        (PutOf 21 (owner 1 7).address 100 1000 (pos 5 ∷ pos 6 ∷ [])
        ∷ PutOf 21 (owner 1 7).address 50 1000 (pos 7 ∷ [])
        ∷ TakeAll ∷ TakeAll ∷ TakeAll ∷ []) }
    ensures { result ≡ 1 }
{
    playouts.peek(21, address, 50, &mut [0; 4])
}

/// Nobody hears them at the former rate.
pub fn none_is_heard_at_another_rate(playouts: &Playouts, address: &Address) -> u32
    requires address { address.now ≡ (owner 1 7).address }
    requires had { Has playouts.now
        (PutOf 21 (owner 1 7).address 50 1000 (pos 5 ∷ pos 6 ∷ []) ∷ TakeAll ∷ TakeAll ∷ TakeAll ∷ []) }
    ensures { result ≡ 0 }
{
    playouts.peek(21, address, 100, &mut [0; 4])
}
