//! What the RTCP codec answers, in words.

use crate::codecs::telling::{numbers_text, octets_text};
use rtcp_codec::{
    App, Bye, Nack, NackWord, Other, ReportBlock, Rtcp, RtcpFault, SdesChunk, SenderReport,
    WriteFault, read_compound, write_compound,
};
use std::alloc::{AllocError, Global};

/// The number and name of a fault of reading.
pub fn compound_fault_name(fault: RtcpFault) -> &'static str {
    match fault {
        RtcpFault::Short => "1:Short",
        RtcpFault::Version => "2:Version",
        RtcpFault::First => "3:First",
        RtcpFault::Length => "4:Length",
        RtcpFault::Padding => "5:Padding",
        RtcpFault::Body => "6:Body",
        RtcpFault::OutOfMemory => "7:OutOfMemory",
    }
}

/// The number and name of a fault of writing.
fn write_fault_name(fault: WriteFault) -> &'static str {
    match fault {
        WriteFault::First => "1:First",
        WriteFault::Count => "2:Count",
        WriteFault::TooLong => "3:TooLong",
        WriteFault::Kind => "4:Kind",
        WriteFault::OutOfMemory => "5:OutOfMemory",
    }
}

/// Report blocks, each behind a space.
fn blocks_text(alloc: Global, blocks: &[ReportBlock]) -> Result<String, AllocError> {
    let mut out = String::new(alloc);
    for b in blocks {
        let (ssrc, fraction, lost, highest) = (b.ssrc, b.fraction, b.lost, b.highest);
        let (jitter, lsr, dlsr) = (b.jitter, b.lsr, b.dlsr);
        let block = format!(in alloc;
            " block={ssrc}/{fraction}/{lost}/{highest}/{jitter}/{lsr}/{dlsr}"
        )?;
        out.push_str(block.as_str())?;
    }
    Ok(out)
}

fn sender_text(alloc: Global, report: &SenderReport) -> Result<String, AllocError> {
    let (ssrc, ntp, ts) = (report.ssrc, report.ntp, report.ts);
    let (packets, octets) = (report.packets, report.octets);
    let blocks = blocks_text(alloc, &report.blocks)?;
    format!(in alloc;
        "sender ssrc={ssrc} ntp={ntp:016x} rtp={ts} packets={packets} octets={octets}{blocks}"
    )
}

/// A chunk: its source, and each item's type and text in hexadecimal.
fn chunk_text(alloc: Global, chunk: &SdesChunk) -> Result<String, AllocError> {
    let ssrc = chunk.ssrc;
    let mut out = format!(in alloc; " chunk={ssrc}")?;
    for item in &chunk.items {
        let kind = item.kind;
        let text = octets_text(alloc, &item.text)?;
        out.push_str(format!(in alloc; "/{kind}:{text}")?.as_str())?;
    }
    Ok(out)
}

fn chunks_text(alloc: Global, chunks: &[SdesChunk]) -> Result<String, AllocError> {
    let mut out = String::from_str(alloc, "sdes")?;
    for chunk in chunks {
        out.push_str(chunk_text(alloc, chunk)?.as_str())?;
    }
    Ok(out)
}

/// A leave. The reason is `none` where there is none, and `-` where it is empty.
fn bye_text(alloc: Global, bye: &Bye) -> Result<String, AllocError> {
    let ssrcs = numbers_text(alloc, &bye.ssrcs)?;
    let reason = match &bye.reason {
        None => String::from_str(alloc, "none")?,
        Some(text) => octets_text(alloc, text)?,
    };
    format!(in alloc; "bye ssrcs={ssrcs} reason={reason}")
}

fn app_text(alloc: Global, app: &App) -> Result<String, AllocError> {
    let (subtype, ssrc) = (app.subtype, app.ssrc);
    let name = octets_text(alloc, &app.name)?;
    let content = octets_text(alloc, &app.content)?;
    format!(in alloc; "app subtype={subtype} ssrc={ssrc} name={name} content={content}")
}

/// The words of a NACK, with commas between them, `-` for none.
pub fn words_text(alloc: Global, words: &[NackWord]) -> Result<String, AllocError> {
    let mut out = String::new(alloc);
    for word in words {
        let (pid, blp) = (word.pid, word.blp);
        let comma = if out.is_empty() { "" } else { "," };
        out.push_str(format!(in alloc; "{comma}{pid}/{blp:04x}")?.as_str())?;
    }
    if out.is_empty() {
        out.push_str("-")?;
    }
    Ok(out)
}

fn nack_text(alloc: Global, nack: &Nack) -> Result<String, AllocError> {
    let (sender, media) = (nack.sender, nack.media);
    let words = words_text(alloc, &nack.words)?;
    format!(in alloc; "nack sender={sender} media={media} words={words}")
}

fn other_text(alloc: Global, other: &Other) -> Result<String, AllocError> {
    let (pt, count) = (other.pt, other.count);
    let body = octets_text(alloc, &other.body)?;
    format!(in alloc; "other pt={pt} count={count} body={body}")
}

fn packet_text(alloc: Global, packet: &Rtcp) -> Result<String, AllocError> {
    match packet {
        Rtcp::Sender(report) => sender_text(alloc, report),
        Rtcp::Receiver(report) => {
            let ssrc = report.ssrc;
            let blocks = blocks_text(alloc, &report.blocks)?;
            format!(in alloc; "receiver ssrc={ssrc}{blocks}")
        }
        Rtcp::Sdes(chunks) => chunks_text(alloc, chunks),
        Rtcp::Bye(bye) => bye_text(alloc, bye),
        Rtcp::App(app) => app_text(alloc, app),
        Rtcp::Nack(nack) => nack_text(alloc, nack),
        Rtcp::Pli(pli) => {
            let (sender, media) = (pli.sender, pli.media);
            format!(in alloc; "pli sender={sender} media={media}")
        }
        Rtcp::Other(other) => other_text(alloc, other),
    }
}

/// What is written for packets that were read, behind an octet that stands there: `again` where
/// these are the octets that they were read from.
fn written_text(alloc: Global, octets: &[u8], packets: &[Rtcp]) -> Result<String, AllocError> {
    let mut out = Vec::from_slice(alloc, &[7])?;
    if let Err(fault) = write_compound(packets, &mut out) {
        return String::from_str(alloc, write_fault_name(fault));
    }
    match out.as_slice() {
        [7, written @ ..] if written == octets => String::from_str(alloc, "again"),
        [7, written @ ..] => {
            let written = octets_text(alloc, written)?;
            format!(in alloc; "written={written}")
        }
        _ => String::from_str(alloc, "the octet before is gone"),
    }
}

/// What reading these octets as a compound gives, and what its packets are written as.
pub fn read_compound_text(alloc: Global, octets: &[u8]) -> Result<String, AllocError> {
    let packets = match read_compound(alloc, octets) {
        Ok(packets) => packets,
        Err(fault) => return String::from_str(alloc, compound_fault_name(fault)),
    };
    let mut out = String::new(alloc);
    for packet in &packets {
        out.push_str(packet_text(alloc, packet)?.as_str())?;
        out.push_str(" | ")?;
    }
    out.push_str(written_text(alloc, octets, &packets)?.as_str())?;
    Ok(out)
}
