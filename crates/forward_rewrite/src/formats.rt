//! The formats of mixes, and their payloads.

ghost use Rattle.std.specs.Prelude.{◌≡◌, ◌++◌, OnOk};
ghost use Rattle.media_items.specs.Formats.{encoded};
ghost use Rattle.forward_rewrite.specs.Mixes.{format_of};

use desk_rows::Codec;
use media_items::Format;
use std::alloc::{AllocError, Allocator};

/// The format of a codec at a clock rate of 8000 or 44100 Hz. PCMU is at 8000 Hz whatever the rate.
pub fn format_of(codec: Codec, rate: u32) -> Format
    ensures { result ≡ format_of codec rate }
{
    match codec {
        Codec::Pcmu => Format::Pcmu,
        Codec::L16 if rate == Format::L16At44100.rate() => Format::L16At44100,
        Codec::L16 => Format::L16At8000,
    }
}

/// Appends encoded samples.
pub fn append_encoded<A: Allocator>(
    format: Format,
    samples: &[i16],
    out: &mut Vec<u8, A>,
) -> Result<(), AllocError>
    ensures { OnOk result (out.new.items ≡ out.old.items ++ encoded format samples.now) }
{
    let before = out.len();
    out.resize(before + format.payload_len(samples), 0)?;
    let (_, tail) = out.as_mut_slice().split_at_mut(before);
    format.encode_into(samples, tail);
    Ok(())
}
