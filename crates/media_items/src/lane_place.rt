//! The streams of a lane.

ghost use Rattle.std.specs.Prelude.{◌≡◌, ◌<◌};
ghost use Rattle.media_items.specs.OwnStreams.{is_mine};

/// A lane (media worker) among several. Its streams are those whose SSRC modulo the number of lanes is its own number.
#[derive(Clone, Copy)]
pub struct LanePlace {
    /// The lane's number, 0 to 15.
    pub lane: u32,
    /// The number of lanes, 1 to 16, above `lane`.
    pub lanes: u32,
    ghost one_of: { lane < lanes },
}

impl LanePlace {
    /// Whether the stream of this SSRC is the lane's.
    pub fn is_mine(&self, ssrc: u32) -> bool
        ensures { result ≡ is_mine self.now.lane self.now.lanes ssrc }
    {
        let lanes = self.lanes;
        ssrc % lanes == self.lane
    }
}
