//! Settings of a case.

use front_settings::{FrontSettings, Listening, settings};
use std::alloc::Global;

/// How many octets a buffer is asked to have where the settings don't say.
const USUAL: u32 = 4_194_304;

/// The octets of both buffers, if one of them isn't as where the settings don't say.
fn buffers(alloc: Global, settings: &FrontSettings) -> Option<String> {
    let (receive, send) = (settings.receive_buffer, settings.send_buffer);
    if receive == USUAL && send == USUAL {
        return Some(String::new(alloc));
    }
    format!(in alloc; " buffers {receive} {send}").ok()
}

/// Settings as a line of a case has them: where the bridge listens, its lanes, its operators, the milliseconds between
/// its reports, its SSRC and its name; where its trace goes to, if it has one; and the octets of its buffers.
fn shown(alloc: Global, settings: &FrontSettings) -> Option<String> {
    let listening = Listening {
        udp: settings.udp,
        tcp: settings.tcp,
    };
    let lanes = settings.lanes;
    let operators = settings.operators;
    let report_ms = settings.report_ms;
    let ssrc = settings.bridge.bridge_ssrc;
    let cname = str::from_utf8(&settings.bridge.cname).ok()?;
    let trace = match settings.trace {
        None => String::new(alloc),
        Some(at) => format!(in alloc; " trace {at}").ok()?,
    };
    let buffers = buffers(alloc, settings)?;
    format!(in alloc;
        "{listening} {lanes} {operators} {report_ms} {ssrc} {cname}{trace}{buffers}"
    ).ok()
}

/// What the settings of a text are, or their fault.
pub fn answer(alloc: Global, text: &str) -> Option<String> {
    match settings(alloc, text) {
        Ok(settings) => shown(alloc, &settings),
        Err(fault) => format!(in alloc; "{fault}").ok(),
    }
}
