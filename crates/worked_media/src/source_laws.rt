//! What the laws of sources tell a caller, however many packets came.

ghost use Rattle.std.specs.Prelude.{◌≡◌, ◌+◌, ◌*◌, ◌≤◌, ◌<◌, ◌-◌, ◌^◌, ◌%◌, ◌++◌, ◌∷◌};
ghost use Rattle.std.specs.Prelude.{ℕ, ℤ, List, map, pos, true, false, IfSome};
ghost use Rattle.source_valid.specs.declared.verdict.Verdict.TheVariants.{Jump};
ghost use Rattle.source_valid.specs.Histories.{Step, Number, Arrival, Valid, standing_of, timing_of, heard_of};
ghost use Rattle.source_valid.specs.Represents.{Represents};
ghost use Rattle.source_valid.specs.Reports.{block_of};
ghost use Rattle.source_valid.specs.Stretches.{Stretch, distance, expected_of, following, greatest_of};
ghost use Rattle.source_valid.specs.Stretches.{max_misorder, received_of, verdict_in};
ghost use Rattle.source_valid.specs.Timings.{untimed};
ghost use Rattle.source_valid.specs.laws.Probations.{NoneFollows, last_of};
ghost use Rattle.source_valid.specs.laws.Steady.{Arrived, AreEven};
ghost use Rattle.source_valid.specs.laws.TrueNumbers.{AreNear, with_numbers};

use rtcp_codec::ReportBlock;
use source_valid::{
    SourceState, delays, intervals, losses, probations, restarts, steady, true_numbers,
};

/// The block of a source that is past probation.
fn block(source: &mut SourceState, moment: u64) -> Option<ReportBlock>
    ensures { IfSome result (λ b. (before : List Step) (s : Stretch) → Represents source.old before
        → standing_of before ≡ Valid s → b ≡ block_of s (timing_of before) (heard_of before) 7 moment) }
{
    if source.past_probation() {
        Some(source.block(7, moment))
    } else {
        None
    }
}

/// Where each number that a sender gave is near the greatest before it, the greatest of all is told as the highest.
pub fn tells_the_greatest_true_number(source: &mut SourceState) -> Option<ReportBlock>
    ensures { IfSome result (λ b. (before : List Step) (s : Stretch) (xs : List ℕ) → standing_of before ≡ Valid s
        → AreNear (greatest_of s) xs → Represents source.old (before ++ map Number (map (λ x. x % 2 ^ 16) xs))
        → b.highest ≡ greatest_of (with_numbers s xs) % 2 ^ 32) }
{
    true_numbers();
    block(source, 0)
}

/// However many numbers came, none of which followed the one before it, the source is on probation.
pub fn stays_on_probation(source: &SourceState) -> bool
    ensures { (first : ℕ) (ns : List ℕ) → NoneFollows first ns → Represents source.now (map Number (first ∷ ns))
        → result ≡ false }
{
    probations();
    source.past_probation()
}

/// The number that follows the last one of them ends probation.
pub fn the_number_that_follows_ends_probation(source: &mut SourceState, seq: u16) -> bool
    ensures { (first : ℕ) (ns : List ℕ) → NoneFollows first ns → Represents source.old (map Number (first ∷ ns))
        → seq ≡ following (last_of first ns) → result ≡ true }
{
    probations();
    source.update(seq);
    source.past_probation()
}

/// Behind two far numbers in a row a block tells of the second one alone: nothing is lost.
pub fn tells_of_the_second_far_number_alone(
    source: &mut SourceState,
    far: u16,
    next: u16,
) -> Option<ReportBlock>
    ensures { IfSome result (λ b. (before : List Step) (s : Stretch) → Represents source.old before
        → standing_of before ≡ Valid s → verdict_in s far ≡ Jump
        → distance (greatest_of s) (following far) ≤ 2 ^ 16 - max_misorder → next ≡ following far
        → (b.highest ≡ next) × (b.lost ≡ pos 0)) }
{
    restarts();
    source.update(far);
    source.update(next);
    block(source, 0)
}

/// Packets that were all as long on their way have no jitter.
pub fn has_no_jitter(source: &mut SourceState) -> Option<ReportBlock>
    ensures { IfSome result (λ b. (before : List Step) (s : Stretch) (transit : ℕ) (arrived : List Arrived)
        → standing_of before ≡ Valid s → timing_of before ≡ untimed → AreEven transit arrived
        → Represents source.old (before ++ map (λ (a : Arrived). Arrival a.ts a.units) arrived) → b.jitter ≡ 0) }
{
    steady();
    block(source, 0)
}

/// So many seconds behind a sender report the block tells just them, in units of 1/65536 second.
pub fn tells_whole_seconds(
    source: &mut SourceState,
    moment: u32,
    seconds: u16,
) -> Option<ReportBlock>
    ensures { IfSome result (λ b. (before : List Step) (s : Stretch) → Represents source.old before
        → standing_of before ≡ Valid s → b.dlsr ≡ seconds * 2 ^ 16) }
{
    delays();
    let from = u64::from(moment);
    source.sender_report(5, from);
    block(source, from + u64::from(seconds) * 1_000_000_000)
}

/// A block's fraction, of all that was expected so far, is no more than what was lost since the last block, and the
/// fraction of what had been expected by then.
pub fn tells_no_more_than_was_lost(source: &mut SourceState) -> Option<ReportBlock>
    ensures { IfSome result (λ b. (before : List Step) (s : Stretch) (later : List ℤ) → Represents source.old before
        → standing_of before ≡ Valid s → s.accepted ≡ s.told ++ later
        → (let expected = expected_of s.base s.accepted in
        let told = expected_of s.base s.told in
        let received = received_of s.accepted - received_of s.told in
        b.fraction * expected ≤ b.fraction * told + 256 * (expected - told - received))) }
{
    intervals();
    losses();
    block(source, 0)
}

/// All that was expected and didn't come is told as lost.
pub fn tells_all_that_was_lost(source: &mut SourceState) -> Option<ReportBlock>
    ensures { IfSome result (λ b. (before : List Step) (s : Stretch) (n : ℕ) → Represents source.old before
        → standing_of before ≡ Valid s → expected_of s.base s.accepted ≡ received_of s.accepted + n → n < 2 ^ 23
        → b.lost ≡ pos n) }
{
    losses();
    block(source, 0)
}
