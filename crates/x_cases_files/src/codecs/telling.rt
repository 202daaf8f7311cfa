//! What the RTP codec answers, in words.

use rtp_codec::{Class, RtpFault, RtpView, classify, read};
use std::alloc::{AllocError, Global};

/// The name of a class.
pub fn class_name(class: Class) -> &'static str {
    match class {
        Class::Rtp => "Rtp",
        Class::Rtcp => "Rtcp",
        Class::Neither => "Neither",
    }
}

/// The number and name of a fault.
pub fn fault_name(fault: RtpFault) -> &'static str {
    match fault {
        RtpFault::Short => "1:Short",
        RtpFault::Version => "2:Version",
        RtpFault::Csrc => "3:Csrc",
        RtpFault::Extension => "4:Extension",
        RtpFault::Padding => "5:Padding",
    }
}

/// Octets in hexadecimal, `-` for none.
pub fn octets_text(alloc: Global, octets: &[u8]) -> Result<String, AllocError> {
    if octets.is_empty() {
        return String::from_str(alloc, "-");
    }
    hex::encode(alloc, octets)
}

/// Numbers with commas between them, `-` for none.
pub fn numbers_text(alloc: Global, numbers: &[u32]) -> Result<String, AllocError> {
    let [first, more @ ..] = numbers else {
        return String::from_str(alloc, "-");
    };
    let mut out = format!(in alloc; "{first}")?;
    for number in more {
        out.push_str(format!(in alloc; ",{number}")?.as_str())?;
    }
    Ok(out)
}

/// The contributing sources, four octets each.
fn csrcs_text(alloc: Global, octets: &[u8]) -> Result<String, AllocError> {
    let mut csrcs = Vec::new(alloc);
    let (words, _) = octets.as_chunks::<4>();
    for word in words {
        csrcs.push(u32::from_be_bytes(*word))?;
    }
    numbers_text(alloc, &csrcs)
}

/// A header extension: the profile's 16 bits and its words.
fn extension_text(alloc: Global, extension: Option<(u16, &[u8])>) -> Result<String, AllocError> {
    match extension {
        None => String::from_str(alloc, "-"),
        Some((profile, words)) => {
            let words = octets_text(alloc, words)?;
            format!(in alloc; "{profile:04x}:{words}")
        }
    }
}

/// A packet that was read, octet by octet.
fn packet_text(alloc: Global, view: &RtpView<'_>) -> Result<String, AllocError> {
    let marker = u8::from(view.marker);
    let (pt, seq, ts, ssrc, padding) = (view.pt, view.seq, view.ts, view.ssrc, view.padding);
    let csrcs = csrcs_text(alloc, view.csrcs)?;
    let extension = extension_text(alloc, view.extension)?;
    let payload = octets_text(alloc, view.payload)?;
    format!(in alloc;
        "marker={marker} pt={pt} seq={seq} ts={ts} ssrc={ssrc} csrcs={csrcs} \
         extension={extension} payload={payload} padding={padding}"
    )
}

/// What reading these octets as an RTP packet gives.
pub fn read_text(alloc: Global, octets: &[u8]) -> Result<String, AllocError> {
    match read(octets) {
        Ok(view) => packet_text(alloc, &view),
        Err(fault) => String::from_str(alloc, fault_name(fault)),
    }
}

/// What these octets are.
pub fn classify_text(alloc: Global, octets: &[u8]) -> Result<String, AllocError> {
    String::from_str(alloc, class_name(classify(octets)))
}
