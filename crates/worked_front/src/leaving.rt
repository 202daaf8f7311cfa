//! How many of the 1,024 places of a lane's ring an item leaves free for others.

ghost use Rattle.std.specs.Prelude.{◌≡◌, ℕ};
ghost use Rattle.media_items.specs.Frame.{SourceFrame};
ghost use Rattle.media_items.specs.Inputs.{Input, Sound, Request, Told, Loss, input_of};

use bridge_core::Item;
use media_front::places_left;

/// NACKs, report blocks and PLIs leave half of the ring, frames and sound 64 places. Ticks, reports and renewals take
/// the last.
pub fn leaves_for_others(item: &Item) -> usize
    ensures nack { (request : Request) → input_of item.now ≡ Input.nack request → result ≡ 512 }
    ensures block { (told : Told) → input_of item.now ≡ Input.block told → result ≡ 512 }
    ensures pli { (loss : Loss) → input_of item.now ≡ Input.pli loss → result ≡ 512 }
    ensures frame { (f : SourceFrame) → input_of item.now ≡ Input.frame f → result ≡ 64 }
    ensures audio { (sound : Sound) → input_of item.now ≡ Input.audio sound → result ≡ 64 }
    ensures tick { (moment : ℕ) → input_of item.now ≡ Input.tick moment → result ≡ 0 }
    ensures report { (moment : ℕ) → input_of item.now ≡ Input.report moment → result ≡ 0 }
    ensures renew { input_of item.now ≡ Input.renew → result ≡ 0 }
{
    places_left(item)
}
