//! When ticks and reports are due. Moments are nanoseconds since 1970, and each bridge started at 1,000,000,000.

ghost use Rattle.std.specs.Prelude.{◌≡◌, true, false, Some, None};

use udp_wire::{ReportTimer, Ticks};

/// One nanosecond before 20 ms have passed no tick is due.
pub fn no_tick_is_due_before_20_ms(ticks: &mut Ticks) -> Option<u64>
    requires { ticks.old ≡ record { start = 1000000000; had = 0 } }
    ensures none { result ≡ None }
    ensures had { ticks.new ≡ record { start = 1000000000; had = 0 } }
{
    ticks.due(1_019_999_999)
}

/// When 20 ms have passed the first tick is due, at that moment.
pub fn a_tick_is_due_at_20_ms(ticks: &mut Ticks) -> Option<u64>
    requires { ticks.old ≡ record { start = 1000000000; had = 0 } }
    ensures due { result ≡ Some 1020000000 }
    ensures had { ticks.new ≡ record { start = 1000000000; had = 1 } }
{
    ticks.due(1_020_000_000)
}

/// A late tick has the moment at which it was due.
pub fn a_late_tick_keeps_its_moment(ticks: &mut Ticks) -> Option<u64>
    requires { ticks.old ≡ record { start = 1000000000; had = 1 } }
    ensures { result ≡ Some 1040000000 }
{
    ticks.due(1_059_999_999)
}

/// 50 ticks behind: none is left out.
pub fn fifty_ticks_are_made_up_for(ticks: &mut Ticks) -> Option<u64>
    requires { ticks.old ≡ record { start = 1000000000; had = 0 } }
    ensures due { result ≡ Some 1020000000 }
    ensures had { ticks.new ≡ record { start = 1000000000; had = 1 } }
{
    ticks.due(2_000_000_000)
}

/// 51 ticks behind: the first is left out, and the second is due.
pub fn of_51_ticks_the_first_is_left_out(ticks: &mut Ticks) -> Option<u64>
    requires { ticks.old ≡ record { start = 1000000000; had = 0 } }
    ensures due { result ≡ Some 1040000000 }
    ensures had { ticks.new ≡ record { start = 1000000000; had = 2 } }
{
    ticks.due(2_020_000_000)
}

/// Reports every 1,500 ms: the first is due 1.5 s after the start.
pub fn a_report_is_due_at_its_interval() -> (bool, bool)
    ensures early { result.0 ≡ false }
    ensures due { result.1 ≡ true }
{
    let mut timer = ReportTimer::begin(1_500, 1_000_000_000);
    let early = timer.due(2_499_999_999);
    let due = timer.due(2_500_000_000);
    (early, due)
}

/// One nanosecond before 5 s have passed no report is due.
pub fn no_report_is_due_before_5_s(timer: &mut ReportTimer) -> bool
    requires { timer.old ≡ record { every = 5000000000; last = 1000000000 } }
    ensures due { result ≡ false }
    ensures last { timer.new ≡ record { every = 5000000000; last = 1000000000 } }
{
    timer.due(5_999_999_999)
}

/// When 5 s have passed a report is due.
pub fn a_report_is_due_at_5_s(timer: &mut ReportTimer) -> bool
    requires { timer.old ≡ record { every = 5000000000; last = 1000000000 } }
    ensures due { result ≡ true }
    ensures last { timer.new ≡ record { every = 5000000000; last = 6000000000 } }
{
    timer.due(6_000_000_000)
}

/// After a late report the next one is due 5 s after it, and not 5 s after it was due.
pub fn a_late_report_moves_the_next(timer: &mut ReportTimer) -> bool
    requires { timer.old ≡ record { every = 5000000000; last = 1000000000 } }
    ensures due { result ≡ true }
    ensures last { timer.new ≡ record { every = 5000000000; last = 6000000007 } }
{
    timer.due(6_000_000_007)
}
