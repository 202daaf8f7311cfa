//! Laws of the definitions: functions that do nothing when they run.

ghost use Rattle.source_valid.specs.laws.Delays.{Delays};
ghost use Rattle.source_valid.specs.laws.Intervals.{Intervals};
ghost use Rattle.source_valid.specs.laws.Losses.{Losses};
ghost use Rattle.source_valid.specs.laws.Probations.{Probations};
ghost use Rattle.source_valid.specs.laws.Restarts.{Restarts};
ghost use Rattle.source_valid.specs.laws.Steady.{Steady};
ghost use Rattle.source_valid.specs.laws.TrueNumbers.{TrueNumbers};

/// A law: the low 16 bits of a sender's numbers give back the whole numbers.
pub fn true_numbers()
    ensures { TrueNumbers }
{}

/// A law: probation lasts until a number is one more than the number before it.
pub fn probations()
    ensures { Probations }
{}

/// A law: two far numbers in a row initialise the source at the second.
pub fn restarts()
    ensures { Restarts }
{}

/// A law: the packets expected in each interval add up to those expected in all.
pub fn intervals()
    ensures { Intervals }
{}

/// A law: packets that all take the same time have no jitter.
pub fn steady()
    ensures { Steady }
{}

/// A law: the delay since a sender report is exact for whole seconds.
pub fn delays()
    ensures { Delays }
{}

/// A law of losses (RFC 3550 A.3 and section 6.4.1). The fraction is rounded down: 0 if no packet was lost, 255 if all
/// were. The cumulative loss is exact if 24 bits can hold it, and else the nearest number that they can.
pub fn losses()
    ensures { Losses }
{}
