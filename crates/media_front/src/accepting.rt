//! Video sources that are accepted for the first time.

ghost use Rattle.std.specs.Prelude.{◌≡◌, ◌&&◌, option_and_then};
ghost use Rattle.ingress.specs.Outcomes.{is_on_time};
ghost use Rattle.ingress.specs.Received.{IsReceived};
ghost use Rattle.ingress.specs.inner.Holding.{IngressOf};
ghost use Rattle.media_front.specs.Fronts.{Arrival};
ghost use Rattle.media_front.specs.Probations.{video_ssrc, EndsProbation};

use bridge_core::{Outcome, Received};
use desk_rows::{Media, Source};

/// The SSRC of a source, if it is video.
fn video_ssrc(source: &Source) -> Option<u32>
    ensures { result ≡ video_ssrc source.now }
{
    if source.media.is_same(Media::Video) {
        Some(source.ssrc)
    } else {
        None
    }
}

/// The SSRC of the source in a row, if there is one and it is video.
fn video_in(row: Option<Source>) -> Option<u32>
    ensures { result ≡ option_and_then video_ssrc row }
{
    match row {
        None => None,
        Some(source) => video_ssrc(&source),
    }
}

/// Whether a datagram with this outcome ended a probation. `begins`: whether an epoch began with it.
fn ends_probation(outcome: Outcome, begins: bool) -> bool
    ensures { result ≡ (is_on_time outcome && begins) }
{
    outcome.is_on_time() && begins
}

/// The SSRC of the video source whose probation a datagram ended, if it ended one (RFC 3550 section A.1).
///
/// The frame that such a source was in is left out, so ask its sender for a picture, by `ask_picture` of the front to
/// the address that the datagram came from. A source that restarts is not meant: the receive side asks for its picture.
pub fn ended_by(received: &Received) -> Option<u32>
    ensures { (arrival : Arrival) (old new : IngressOf)
        → IsReceived arrival.desk arrival.from arrival.moment arrival.octets old.epochs new.epochs received.now
        → EndsProbation arrival received.now.outcome old new result }
{
    if ends_probation(received.outcome, received.begins) {
        video_in(received.source)
    } else {
        None
    }
}
