//! Sequence numbers of one source, and the block that tells of them.

ghost use Rattle.std.specs.Prelude.{◌≡◌, pos, false, IfSome};
ghost use Rattle.worked_media.specs.Blocks.{block};

use rtcp_codec::ReportBlock;
use source_valid::{SourceState, Verdict};

/// One number is not enough.
pub fn is_on_probation_at_first() -> bool
    ensures { result ≡ false }
{
    SourceState::first(7).past_probation()
}

/// Two numbers in a row are.
pub fn two_in_a_row_end_probation() -> Verdict
    ensures { result ≡ Verdict.Accepted (pos 65535) }
{
    let mut source = SourceState::first(65534);
    source.update(65535)
}

/// A number that is left out leaves the source on probation.
pub fn two_with_one_left_out_do_not() -> Verdict
    ensures { result ≡ Verdict.Probation }
{
    let mut source = SourceState::first(7);
    source.update(9)
}

/// Behind the wrap numbers go on.
pub fn goes_on_over_the_wrap() -> Verdict
    ensures { result ≡ Verdict.Accepted (pos 65536) }
{
    let mut source = SourceState::first(65534);
    source.update(65535);
    source.update(0)
}

/// A number 3,000 ahead is too far off.
pub fn jumps_at_3000_ahead() -> Verdict
    ensures { result ≡ Verdict.Jump }
{
    let mut source = SourceState::first(0);
    source.update(1);
    source.update(3001)
}

/// The number after it is where the source begins anew.
pub fn restarts_at_the_second_far_number() -> Verdict
    ensures { result ≡ Verdict.Restarted (pos 3002) }
{
    let mut source = SourceState::first(0);
    source.update(1);
    source.update(3001);
    source.update(3002)
}

/// A packet from before the wrap is counted, under its own number.
pub fn counts_what_comes_late() -> Verdict
    ensures { result ≡ Verdict.Accepted (pos 65438) }
{
    let mut source = SourceState::first(65534);
    source.update(65535);
    source.update(0);
    source.update(1);
    source.update(65438)
}

/// The block of a source to which 101, 102 and 104 came, and again behind it.
pub fn tells_one_lost_of_four() -> Option<(ReportBlock, ReportBlock)>
    ensures first { IfSome result (λ blocks. blocks.0 ≡ block 64) }
    ensures again { IfSome result (λ blocks. blocks.1 ≡ block 0) }
{
    let mut source = SourceState::first(100);
    source.update(101);
    source.update(102);
    source.update(104);
    if !source.past_probation() {
        return None;
    }
    let first = source.block(7, 0);
    if !source.past_probation() {
        return None;
    }
    Some((first, source.block(7, 0)))
}
