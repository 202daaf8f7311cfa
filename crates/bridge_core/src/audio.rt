//! A lane's sound: what goes into its mixer, and the packets of its mixes.

ghost use Rattle.std.specs.Prelude.{◌≡◌, ◌+◌, ◌≤◌, ◌++◌, true, [], map, IfOk, OnOk, OnErr, vec_len, vec_capacity};
ghost use Rattle.media_items.specs.Inputs.{is_sized};
ghost use Rattle.media_items.specs.Inputs.Input.{audio as audio_input};
ghost use Rattle.mixer.specs.Hearing.{Given};
ghost use Rattle.mixer.specs.Mixers.{IsGiven};
ghost use Rattle.bridge_core.specs.Sent.{sent_of};
ghost use Rattle.bridge_core.specs.inner.Parts.{mix_to, TicksAs};

use crate::egress::Egress;
use crate::visit::LaneVisit;
use media_items::Stamp;
use mixer::{MixPacket, Mixer, TimedSamples};
use rtp_codec::Address;
use std::alloc::{AllocError, Allocator};

/// Puts the samples of an audio packet into the lane's mixer. Nothing is sent.
pub fn put_sound<A: Allocator + Copy>(
    alloc: A,
    mixer: &mut Mixer<A>,
    source: u32,
    address: &Address,
    block: TimedSamples<'_>,
) -> Result<Vec<Egress<A>, A>, AllocError>
    requires { is_sized (audio_input (record {
      source = source;
      address = address.now;
      rate = block.rate;
      ts = block.ts;
      samples = block.samples.now;
    })) ≡ true }
    ensures given { OnOk result (IsGiven mixer.old mixer.new
        (Given.put source address.now block.entry.rate block.entry.ts block.entry.samples.now)) }
    ensures nothing { IfOk result (λ sent. map sent_of sent.items ≡ []) }
    ensures err { OnErr result (mixer.new ≡ mixer.old) }
{
    mixer.put(alloc, source, address, block)?;
    Ok(Vec::new(alloc))
}

/// From here on, the lane's jitter buffers begin anew after late or full sound. Nothing is sent.
pub fn renew_sound<A: Allocator + Copy>(alloc: A, mixer: &mut Mixer<A>) -> Vec<Egress<A>, A>
    ensures given { IsGiven mixer.old mixer.new Given.renew }
    ensures nothing { map sent_of result.items ≡ [] }
{
    mixer.renew();
    Vec::new(alloc)
}

/// A packet of a mix as it goes to its member.
fn mixed<A: Allocator + Copy>(stamp: Stamp, mix: MixPacket<A>) -> Egress<A>
    ensures { sent_of result ≡ mix_to stamp mix }
{
    let MixPacket { to, ssrc, packet } = mix;
    Egress::Media {
        version: stamp.version,
        item: stamp.item,
        to,
        ssrc,
        number: packet.number,
        bytes: packet.bytes,
        resent_by: None,
    }
}

/// Appends the packets of mixes as they go to their members. The list has the capacity.
fn emit_mixes<A: Allocator + Copy>(
    out: &mut Vec<Egress<A>, A>,
    stamp: Stamp,
    mixes: Vec<MixPacket<A>, A>,
)
    requires { vec_len out.old + vec_len mixes ≤ vec_capacity out.old }
    ensures { map sent_of out.new.items ≡ map sent_of out.old.items ++ map (mix_to stamp) mixes.items }
{
    for mix in mixes {
        out.push_reserved(mixed(stamp, mix));
    }
}

/// A tick of 20 ms: the packets of the mixes on the lane's streams, by place of the member. All memory is
/// taken before the mixer changes, so a refusal changes nothing.
pub fn send_mixes<A: Allocator + Copy>(
    alloc: A,
    mixer: &mut Mixer<A>,
    visit: &LaneVisit<'_, A>,
    moment: u64,
) -> Result<Vec<Egress<A>, A>, AllocError>
    ensures ticks { IfOk result
        (λ sent. TicksAs visit.now mixer.old mixer.new moment (map sent_of sent.items)) }
    ensures err { OnErr result (mixer.new ≡ mixer.old) }
{
    let rows = visit.rows;
    let mut out = Vec::with_capacity(alloc, rows.members().len())?;
    let mixes = mixer.tick(alloc, &visit.place, rows, moment)?;
    emit_mixes(&mut out, visit.stamp, mixes);
    Ok(out)
}
