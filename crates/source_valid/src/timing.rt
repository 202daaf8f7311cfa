//! The jitter of a source (RFC 3550 A.8).

ghost use Rattle.std.specs.Prelude.{◌≡◌, ◌≤◌, ◌^◌};
ghost use Rattle.source_valid.specs.Timings.{timed};

/// The jitter estimator of a source.
#[derive(Clone, Copy)]
pub struct Timing {
    /// The last transit time: arrival less timestamp, in units of the clock rate, modulo 2^32.
    pub transit: Option<u32>,
    /// 16 times the jitter, in units of the clock rate; at most 2^35.
    pub jitter: u64,
}

impl Timing {
    /// Takes in an accepted packet: its timestamp, and its arrival in units of the clock rate.
    pub fn arrival(&mut self, ts: u32, units: u32)
        requires { self.old.jitter ≤ 2 ^ 35 }
        ensures bounded { self.new.jitter ≤ 2 ^ 35 }
        ensures timed { self.new ≡ timed self.old ts units }
    {
        let transit = units.wrapping_sub(ts);
        if let Some(before) = self.transit {
            let ahead = transit.wrapping_sub(before);
            let back = before.wrapping_sub(transit);
            let d = ahead.min(back) as u64;
            self.jitter = self.jitter + d - (self.jitter + 8) / 16;
        }
        self.transit = Some(transit);
    }
}
