//! The stream of events: its head, its events, and what is new in the log.

ghost use Rattle.std.specs.Prelude.{◌≡◌, ◌++◌, map, OnOk};
ghost use Rattle.std.specs.List.{flat_map};
ghost use Rattle.desk_http.specs.Events.{stream_head, data_octet, event_text, known_lines};

use crate::reading::word_place;
use std::alloc::AllocError;

/// The head of the stream of events, as a browser gets it. Its body ends with the connection.
// The server of the kit encodes whole responses alone, so that the head is spelled here.
pub fn stream_head() -> &'static [u8]
    ensures { result.now ≡ stream_head }
{
    b"HTTP/1.1 200 OK\r\n\
      connection: close\r\n\
      cache-control: no-store\r\n\
      content-security-policy: default-src 'none'; script-src 'self'; style-src 'self'; connect-src 'self'; \
      base-uri 'none'; form-action 'none'; frame-ancestors 'none'\r\n\
      x-content-type-options: nosniff\r\n\
      referrer-policy: no-referrer\r\n\
      cross-origin-resource-policy: same-origin\r\n\
      content-type: text/event-stream\r\n\
      \r\n"
}

/// Appends what stands in an event for an octet of its data.
fn append_data_octet(out: &mut Vec<u8>, octet: u8) -> Result<(), AllocError>
    ensures { OnOk result (out.new.items ≡ out.old.items ++ data_octet octet) }
{
    if octet == b'\n' {
        out.extend_from_slice(b"\ndata: ")
    } else {
        out.extend_from_slice(&[octet])
    }
}

fn append_data(out: &mut Vec<u8>, told: &[u8]) -> Result<(), AllocError>
    ensures { OnOk result (out.new.items ≡ out.old.items ++ flat_map data_octet told.now) }
{
    for octet in told {
        append_data_octet(out, *octet)?;
    }
    Ok(())
}

/// Appends an event with this name and these lines of data. An `Err` may append a part.
pub fn append_event(out: &mut Vec<u8>, name: &[u8], told: &[u8]) -> Result<(), AllocError>
    ensures { OnOk result (out.new.items ≡ out.old.items ++ event_text name.now told.now) }
{
    out.extend_from_slice(b"event: ")?;
    out.extend_from_slice(name)?;
    out.extend_from_slice(b"\ndata: ")?;
    append_data(out, told)?;
    out.extend_from_slice(b"\n\n")
}

/// How many lines there are up to this one, or none where it isn't there: those behind them are new.
pub fn known_lines(line: &str, lines: &[&str]) -> usize
    ensures { result ≡ known_lines line.now (map (λ x. x.now) lines.now) }
{
    match word_place(lines, line) {
        Some(at) => at.saturating_add(1),
        None => 0,
    }
}
