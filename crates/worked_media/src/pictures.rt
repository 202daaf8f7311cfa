//! When a source of video is asked for a picture.

ghost use Rattle.std.specs.Prelude.{◌≡◌, [], ◌∷◌, IfOk};

use picture_requests::{PictureRequests, VideoSource};
use std::alloc::{AllocError, Global};

/// Source 101 of a member.
const SOURCE: VideoSource = VideoSource {
    ssrc: 101,
    ip: [127, 0, 0, 1],
    port: 5010,
};

/// A source that is wanted is due at once. After it was asked it no longer waits, however late it is.
pub fn a_wanted_source_is_asked_once(
    alloc: Global,
) -> Result<(Vec<VideoSource>, Vec<VideoSource>), AllocError>
    ensures first { IfOk result
        (λ due. due.0.items ≡ (record { ssrc = 101; ip = 127 ∷ 0 ∷ 0 ∷ 1 ∷ []; port = 5010 }) ∷ []) }
    ensures second { IfOk result (λ due. due.1.items ≡ []) }
{
    let mut requests = PictureRequests::new(alloc);
    requests.want(alloc, &SOURCE, 1_000_000_000)?;
    let first = requests.due(alloc, 1_000_000_000)?;
    requests.asked(&SOURCE, 1_000_000_000);
    let second = requests.due(alloc, 9_000_000_000)?;
    Ok((first, second))
}

/// A source was asked at 1 s, and waits again. It is not due a nanosecond before 1.5 s, and due then.
pub fn requests_are_half_a_second_apart(
    alloc: Global,
    requests: &PictureRequests,
) -> Result<(Vec<VideoSource>, Vec<VideoSource>), AllocError>
    requires waiting { requests.now.waiting ≡ (record { ssrc = 101; ip = 127 ∷ 0 ∷ 0 ∷ 1 ∷ []; port = 5010 }) ∷ [] }
    requires sent { requests.now.sent
        ≡ (record { source = record { ssrc = 101; ip = 127 ∷ 0 ∷ 0 ∷ 1 ∷ []; port = 5010 }; moment = 1000000000 })
        ∷ [] }
    ensures early { IfOk result (λ due. due.0.items ≡ []) }
    ensures late { IfOk result
        (λ due. due.1.items ≡ (record { ssrc = 101; ip = 127 ∷ 0 ∷ 0 ∷ 1 ∷ []; port = 5010 }) ∷ []) }
{
    let early = requests.due(alloc, 1_499_999_999)?;
    let late = requests.due(alloc, 1_500_000_000)?;
    Ok((early, late))
}
