//! When lanes are woken for what they were given.

ghost use Rattle.std.specs.Prelude.{◌≡◌, ◌<◌, ◌≤◌, ◌+◌, ◌-◌, ◌*◌, ◌/◌, ℕ, true, false, if◌then◌else◌};
ghost use Rattle.std.specs.Prelude.{None, Some, IfSome};
ghost use Rattle.playout.specs.Playout.{is_reset};
ghost use Rattle.udp_wire.specs.Pacing.{tick_gap, most_ticks};
ghost use Rattle.media_workers.specs.Ports.{ring_places};
ghost use Rattle.media_front.specs.PlacesLeft.{left_by_media};
ghost use Rattle.event_loop.specs.Sleeps.{samples_last, awake_for, asleep_for};
ghost use Rattle.event_loop.specs.Kept.{is_wake_due};

/// For how long lanes are still woken in each round once the desk has no members, in nanoseconds: 2 s. After that no
/// samples wait in a jitter buffer, so that waiting ticks bring nothing, whichever members join.
const AWAKE: u64 = 2_000_000_000;

/// For how long lanes may sleep from then on, in nanoseconds: 500 ms, which are 25 ticks.
const ASLEEP: u64 = 500_000_000;

/// The ticks that wait for a sleeping lane, those that a round makes up for, and its report leave frames and sound
/// their places in the lane's ring. It does nothing when it runs.
pub fn sleeping_lanes_have_places()
    ensures { asleep_for / tick_gap + most_ticks + 1 ≤ ring_places - left_by_media }
{}

/// Lanes are woken until no samples wait, also where the ticks that are made up for came late: what a jitter buffer
/// takes in without beginning anew lasts no longer than `samples_last`. It does nothing when it runs.
pub fn awake_lanes_run_out_of_samples()
    ensures samples { (rate position place count : ℕ) → is_reset rate position place count ≡ false
        → 1000000000 * (place + count - position) ≤ samples_last * rate }
    ensures ticks { samples_last + most_ticks * tick_gap ≤ awake_for }
{}

/// Wakes lanes in each round while the desk has members, and twice a second while it has none.
// Sixteen lanes that wake fifty times a second would take over a percent of a core for nothing. No case on sockets can
// show it without timing: an empty bridge sends nothing.
#[derive(Drop)]
pub struct Wakes {
    /// The last moment at which the desk had members, in nanoseconds since 1970.
    pub member: Option<u64>,
    /// The last moment at which the lanes were woken, in nanoseconds since 1970.
    pub wake: u64,
}

impl Wakes {
    /// At this moment the lanes are awake.
    pub fn begin(now: u64) -> Self
        ensures begun { result ≡ record { member = None; wake = now } }
    {
        Self {
            member: None,
            wake: now,
        }
    }

    /// Whether the lanes are woken in this round. If so, it notes the moment.
    pub fn is_due(&mut self, now: u64, has_members: bool) -> bool
        ensures due { result ≡ is_wake_due now has_members self.old }
        ensures members { has_members ≡ true → result ≡ true }
        ensures often { self.old.wake + asleep_for ≤ now → result ≡ true }
        ensures awake { IfSome self.old.member (λ m. now < m + awake_for → result ≡ true) }
        ensures asleep { has_members ≡ false → IfSome self.old.member (λ m. m + awake_for ≤ now)
            → now < self.old.wake + asleep_for → result ≡ false }
        ensures noted { self.new.member ≡ (if has_members then Some now else self.old.member) }
        ensures woken { self.new.wake ≡ (if result then now else self.old.wake) }
    {
        if has_members {
            self.member = Some(now);
        }
        let is_awake = match self.member {
            Some(member) => now.saturating_sub(member) < AWAKE,
            None => false,
        };
        let is_due = is_awake || now.saturating_sub(self.wake) >= ASLEEP;
        if is_due {
            self.wake = now;
        }
        is_due
    }
}
