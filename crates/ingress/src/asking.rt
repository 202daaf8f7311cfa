//! Turns the packets of a compound into items.

ghost use Rattle.std.specs.Prelude.{◌≡◌, ◌++◌, map, IfOk, OnOk};
ghost use Rattle.std.specs.List.{flat_map};
ghost use Rattle.rtcp_codec.specs.View.{packet_of, packets_of};
ghost use Rattle.media_items.specs.Inputs.{input_of};
ghost use Rattle.ingress.specs.Control.{asks, block_item};

use media_items::Item;
use rtcp_codec::{ReportBlock, Rtcp};
use rtp_codec::Address;
use sender_feedback::numbers_of;
use std::alloc::{AllocError, Allocator};

/// Appends an item for each report block.
fn put_blocks<A: Allocator + Copy>(
    items: &mut Vec<Item<A>, A>,
    from: &Address,
    blocks: &[ReportBlock],
) -> Result<(), AllocError>
    ensures { OnOk result (map input_of items.new.items
        ≡ map input_of items.old.items ++ map (block_item from.now) blocks.now) }
{
    for block in blocks {
        items.push(Item::Block {
            from: *from,
            block: *block,
        })?;
    }
    Ok(())
}

fn put_asked<A: Allocator + Copy>(
    alloc: A,
    items: &mut Vec<Item<A>, A>,
    from: &Address,
    packet: &Rtcp<A>,
) -> Result<(), AllocError>
    ensures { OnOk result (map input_of items.new.items
        ≡ map input_of items.old.items ++ asks from.now (packet_of packet.now)) }
{
    match packet {
        Rtcp::Nack(nack) => {
            let numbers = numbers_of(alloc, packet)?;
            items.push(Item::Nack {
                from: *from,
                out_ssrc: nack.media,
                numbers,
            })?;
            Ok(())
        }
        Rtcp::Pli(pli) => {
            items.push(Item::Pli {
                from: *from,
                out_ssrc: pli.media,
            })?;
            Ok(())
        }
        Rtcp::Sender(report) => put_blocks(items, from, &report.blocks),
        Rtcp::Receiver(report) => put_blocks(items, from, &report.blocks),
        Rtcp::Sdes(_) | Rtcp::Bye(_) | Rtcp::App(_) | Rtcp::Other(_) => Ok(()),
    }
}

/// The items of a compound's packets, in their order.
pub(crate) fn asked_items<A: Allocator + Copy>(
    alloc: A,
    from: &Address,
    packets: &[Rtcp<A>],
) -> Result<Vec<Item<A>, A>, AllocError>
    ensures { IfOk result (λ items. map input_of items.items ≡ flat_map (asks from.now) (packets_of packets.now)) }
{
    let mut items = Vec::new(alloc);
    for packet in packets {
        put_asked(alloc, &mut items, from, packet)?;
    }
    Ok(items)
}
