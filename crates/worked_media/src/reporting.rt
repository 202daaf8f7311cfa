//! What is reported of streams and of sources.

ghost use Rattle.std.specs.Prelude.{◌≡◌, pos, neg_ℤ, [], ◌∷◌, ◌++◌, None, Some, IfOk};
ghost use Rattle.worked_media.specs.Upstreams.{octets_of};
ghost use Rattle.worked_media.specs.Reported.{name, first_block, second_block};

use crate::streaming::{owner, switched};
use forward_rewrite::Counts;
use receiver_feedback::{LossNote, note, sender_report};
use rtcp_codec::ReportBlock;
use sender_feedback::receiver_report;
use std::alloc::{AllocError, Global};

/// What is counted of a stream whose last frame had timestamp 1000, one second after 1970.
fn counts() -> Counts
    ensures { result ≡ record { ssrc = 501; packets = 2; octets = 3; ts = 1000; moment = 1000000000; rate = 90000 } }
{
    Counts {
        ssrc: 501,
        packets: 2,
        octets: 3,
        ts: 1000,
        moment: 1_000_000_000,
        rate: 90_000,
    }
}

/// Half a second after the last frame the stream's time has gone on by 45000.
pub fn time_goes_on_behind_the_last_frame(alloc: Global) -> Result<Vec<u8>, AllocError>
    ensures { IfOk result (λ v. v.items ≡ octets_of
        (0x80c80006 ∷ 0x000001f5 ∷ 0x83aa7e81 ∷ 0x80000000 ∷ 0x0000b3b0 ∷ 0x00000002 ∷ 0x00000003 ∷ name 0x000001f5)) }
{
    sender_report(alloc, &counts(), 1_500_000_000, b"bridge")
}

/// Before the last frame it is the frame's.
pub fn time_does_not_go_back(alloc: Global) -> Result<Vec<u8>, AllocError>
    ensures { IfOk result (λ v. v.items ≡ octets_of
        (0x80c80006 ∷ 0x000001f5 ∷ 0x83aa7e80 ∷ 0x00000000 ∷ 0x000003e8 ∷ 0x00000002 ∷ 0x00000003 ∷ name 0x000001f5)) }
{
    sender_report(alloc, &counts(), 0, b"bridge")
}

/// 2,085,978,495 seconds after 1970 is the last second before NTP's begin anew.
pub fn seconds_begin_anew_in_2036(alloc: Global) -> Result<Vec<u8>, AllocError>
    ensures { IfOk result (λ v. v.items ≡ octets_of
        (0x80c80006 ∷ 0x000001f5 ∷ 0xffffffff ∷ 0xfffffffb ∷ 0x2ca5fc57 ∷ 0x00000002 ∷ 0x00000003 ∷ name 0x000001f5)) }
{
    sender_report(alloc, &counts(), 2_085_978_495_999_999_999, b"bridge")
}

fn first_block() -> ReportBlock
    ensures { result ≡ first_block }
{
    ReportBlock {
        ssrc: 101,
        fraction: 64,
        lost: -1,
        highest: 103,
        jitter: 175,
        lsr: 0,
        dlsr: 0,
    }
}

fn second_block() -> ReportBlock
    ensures { result ≡ second_block }
{
    ReportBlock {
        ssrc: 102,
        fraction: 0,
        lost: 0,
        highest: 65537,
        jitter: 0,
        lsr: 0x7e80_0000,
        dlsr: 65536,
    }
}

/// Two sources are told of in one report, and the name stands behind it.
pub fn two_sources_are_told_of(alloc: Global) -> Result<Vec<u8>, AllocError>
    ensures { IfOk result (λ v. v.items ≡ octets_of ((0x82c9000d ∷ 0x00000001
        ∷ 0x00000065 ∷ 0x40ffffff ∷ 0x00000067 ∷ 0x000000af ∷ 0x00000000 ∷ 0x00000000
        ∷ 0x00000066 ∷ 0x00000000 ∷ 0x00010001 ∷ 0x00000000 ∷ 0x7e800000 ∷ 0x00010000 ∷ []) ++ name 0x00000001)) }
{
    receiver_report(alloc, 1, &[first_block(), second_block()], b"bridge")
}

/// Where no source is told of there is a report still.
pub fn no_source_is_told_of(alloc: Global) -> Result<Vec<u8>, AllocError>
    ensures { IfOk result (λ v. v.items ≡ octets_of (0x80c90001 ∷ 0x00000001 ∷ name 0x00000001)) }
{
    receiver_report(alloc, 1, &[], b"bridge")
}

/// A receiver whose highest number is 65536 has got the packet 0, which is of source 6.
fn heard_up_to_65536() -> ReportBlock
    ensures { result ≡ record {
      ssrc = 500;
      fraction = 0;
      lost = neg_ℤ (pos 4);
      highest = 65536;
      jitter = 0;
      lsr = 0;
      dlsr = 0;
    } }
{
    ReportBlock {
        ssrc: 500,
        fraction: 0,
        lost: -4,
        highest: 65536,
        jitter: 0,
        lsr: 0,
        dlsr: 0,
    }
}

/// What it tells leads back to that source's packet.
pub fn a_note_leads_back_to_the_source(alloc: Global) -> Result<LossNote, AllocError>
    ensures { IfOk result (λ n. n ≡ record {
      out_ssrc = 500;
      fraction = 0;
      lost = neg_ℤ (pos 4);
      source = Some (6, pos 100);
    }) }
{
    let stream = switched(alloc)?;
    Ok(note(&heard_up_to_65536(), &owner(1, 7), &stream))
}

/// Another receiver did not get it.
pub fn a_note_of_another_leads_nowhere(alloc: Global) -> Result<LossNote, AllocError>
    ensures { IfOk result (λ n. n ≡ record { out_ssrc = 500; fraction = 0; lost = neg_ℤ (pos 4); source = None }) }
{
    let stream = switched(alloc)?;
    Ok(note(&heard_up_to_65536(), &owner(1, 9), &stream))
}
