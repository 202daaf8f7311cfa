//! Packets that can't be written as a compound: the first packet that has a fault tells its first.

ghost use Rattle.std.specs.Prelude.{◌≡◌, ◌*◌, [], ◌∷◌, Err, length, replicate, Some, None, pos, negsuc};
ghost use Rattle.rtcp_codec.specs.Packet.{Receiver, Sdes, Bye, App, Nack, Other};
ghost use Rattle.rtcp_codec.specs.View.{packets_of};
ghost use Rattle.worked_codecs.specs.Packets.{block, chunk};

use rtcp_codec::{Rtcp, WriteFault, write_compound};

/// No packet, and what stands there stays.
pub fn no_packet(out: &mut Vec<u8>) -> Result<(), WriteFault>
    ensures answer { result ≡ Err WriteFault.First }
    ensures same { out.new.items ≡ out.old.items }
{
    let packets: [Rtcp; 0] = [];
    write_compound(&packets, out)
}

/// A leave comes first, which is told before a count of its own.
pub fn a_leave_comes_first(packets: &[Rtcp], out: &mut Vec<u8>) -> Result<(), WriteFault>
    requires { packets_of packets.now ≡ Bye (replicate 32 7) None ∷ [] }
    ensures { result ≡ Err WriteFault.First }
{
    write_compound(packets, out)
}

/// 32 blocks.
pub fn blocks_32(packets: &[Rtcp], out: &mut Vec<u8>) -> Result<(), WriteFault>
    requires { packets_of packets.now ≡ Receiver 9 (replicate 32 (block (pos 0))) ∷ [] }
    ensures { result ≡ Err WriteFault.Count }
{
    write_compound(packets, out)
}

/// 32 chunks, which is told before their items of type 0.
pub fn chunks_32(packets: &[Rtcp], out: &mut Vec<u8>) -> Result<(), WriteFault>
    requires { packets_of packets.now ≡ Receiver 9 [] ∷ Sdes (replicate 32 (chunk 0 (97 ∷ []))) ∷ [] }
    ensures { result ≡ Err WriteFault.Count }
{
    write_compound(packets, out)
}

/// 32 sources that leave, which is told before the reason of 256 octets.
pub fn sources_32(packets: &[Rtcp], out: &mut Vec<u8>) -> Result<(), WriteFault>
    requires { packets_of packets.now ≡ Receiver 9 [] ∷ Bye (replicate 32 7) (Some (replicate 256 97)) ∷ [] }
    ensures { result ≡ Err WriteFault.Count }
{
    write_compound(packets, out)
}

/// A subtype of 32, which is told before the content of three octets.
pub fn a_subtype_of_32(packets: &[Rtcp], out: &mut Vec<u8>) -> Result<(), WriteFault>
    requires { packets_of packets.now ≡ Receiver 9 [] ∷ App 32 9 (replicate 4 97) (1 ∷ 2 ∷ 3 ∷ []) ∷ [] }
    ensures { result ≡ Err WriteFault.Count }
{
    write_compound(packets, out)
}

/// A count of 32 of another packet.
pub fn a_count_of_32(packets: &[Rtcp], out: &mut Vec<u8>) -> Result<(), WriteFault>
    requires { packets_of packets.now ≡ Receiver 9 [] ∷ Other 192 32 [] ∷ [] }
    ensures { result ≡ Err WriteFault.Count }
{
    write_compound(packets, out)
}

/// A NACK without words.
pub fn no_words(packets: &[Rtcp], out: &mut Vec<u8>) -> Result<(), WriteFault>
    requires { packets_of packets.now ≡ Receiver 9 [] ∷ Nack 9 101 [] ∷ [] }
    ensures { result ≡ Err WriteFault.Count }
{
    write_compound(packets, out)
}

/// A text of 256 octets, which is told before its type of 0.
pub fn a_text_of_256(packets: &[Rtcp], out: &mut Vec<u8>) -> Result<(), WriteFault>
    requires { packets_of packets.now ≡ Receiver 9 [] ∷ Sdes (chunk 0 (replicate 256 97) ∷ []) ∷ [] }
    ensures { result ≡ Err WriteFault.TooLong }
{
    write_compound(packets, out)
}

/// A reason of 256 octets.
pub fn a_reason_of_256(packets: &[Rtcp], out: &mut Vec<u8>) -> Result<(), WriteFault>
    requires { packets_of packets.now ≡ Receiver 9 [] ∷ Bye (7 ∷ []) (Some (replicate 256 97)) ∷ [] }
    ensures { result ≡ Err WriteFault.TooLong }
{
    write_compound(packets, out)
}

/// A content that isn't whole words.
pub fn a_content_of_three_octets(packets: &[Rtcp], out: &mut Vec<u8>) -> Result<(), WriteFault>
    requires { packets_of packets.now ≡ Receiver 9 [] ∷ App 0 9 (replicate 4 97) (1 ∷ 2 ∷ 3 ∷ []) ∷ [] }
    ensures { result ≡ Err WriteFault.TooLong }
{
    write_compound(packets, out)
}

/// A body that isn't whole words, which is told before its kind.
pub fn a_body_of_five_octets(packets: &[Rtcp], out: &mut Vec<u8>) -> Result<(), WriteFault>
    requires { packets_of packets.now ≡ Receiver 9 [] ∷ Other 201 0 (1 ∷ 2 ∷ 3 ∷ 4 ∷ 5 ∷ []) ∷ [] }
    ensures { result ≡ Err WriteFault.TooLong }
{
    write_compound(packets, out)
}

/// A packet of one word more than its length can tell.
pub fn a_packet_of_65537_words(
    packets: &[Rtcp],
    body: &[u8],
    out: &mut Vec<u8>,
) -> Result<(), WriteFault>
    requires size { length body.now ≡ 4 * 65536 }
    requires packets { packets_of packets.now ≡ Receiver 9 [] ∷ Other 192 0 body.now ∷ [] }
    ensures { result ≡ Err WriteFault.TooLong }
{
    write_compound(packets, out)
}

/// An item of type 0, which would end the list.
pub fn an_item_of_type_0(packets: &[Rtcp], out: &mut Vec<u8>) -> Result<(), WriteFault>
    requires { packets_of packets.now ≡ Receiver 9 [] ∷ Sdes (chunk 0 (97 ∷ []) ∷ []) ∷ [] }
    ensures { result ≡ Err WriteFault.Kind }
{
    write_compound(packets, out)
}

/// A loss of one more than 24 bits can tell.
pub fn a_loss_of_too_many(packets: &[Rtcp], out: &mut Vec<u8>) -> Result<(), WriteFault>
    requires { packets_of packets.now ≡ Receiver 9 (block (pos 8388608) ∷ []) ∷ [] }
    ensures { result ≡ Err WriteFault.Kind }
{
    write_compound(packets, out)
}

/// A loss of one less than they can.
pub fn a_loss_of_too_few(packets: &[Rtcp], out: &mut Vec<u8>) -> Result<(), WriteFault>
    requires { packets_of packets.now ≡ Receiver 9 (block (negsuc 8388608) ∷ []) ∷ [] }
    ensures { result ≡ Err WriteFault.Kind }
{
    write_compound(packets, out)
}

/// A report as another packet.
pub fn another_report(packets: &[Rtcp], out: &mut Vec<u8>) -> Result<(), WriteFault>
    requires { packets_of packets.now ≡ Receiver 9 [] ∷ Other 201 0 [] ∷ [] }
    ensures { result ≡ Err WriteFault.Kind }
{
    write_compound(packets, out)
}

/// A PLI as another packet.
pub fn another_pli(packets: &[Rtcp], out: &mut Vec<u8>) -> Result<(), WriteFault>
    requires { packets_of packets.now ≡ Receiver 9 [] ∷ Other 206 1 [] ∷ [] }
    ensures { result ≡ Err WriteFault.Kind }
{
    write_compound(packets, out)
}

/// The second packet's fault, before the third's of a lower number.
pub fn the_first_packet_that_has_a_fault(
    packets: &[Rtcp],
    out: &mut Vec<u8>,
) -> Result<(), WriteFault>
    requires { packets_of packets.now ≡ Receiver 9 [] ∷ Other 206 1 [] ∷ Nack 9 101 [] ∷ [] }
    ensures { result ≡ Err WriteFault.Kind }
{
    write_compound(packets, out)
}
