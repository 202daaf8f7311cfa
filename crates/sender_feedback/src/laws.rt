//! A law of the definitions: a function that does nothing when it runs.

ghost use Rattle.std.specs.Prelude.{◌≡◌, ℕ, List};
ghost use Rattle.std.specs.List.{flat_map};
ghost use Rattle.rtcp_codec.specs.declared.report.ReportBlock.{ReportBlock};
ghost use Rattle.sender_feedback.specs.ReceiverReports.{receiver_reports, blocks_in};

/// A law: receiver reports contain each of their blocks once, in order.
pub fn blocks_are_told_once()
    ensures { (ssrc : ℕ) (blocks : List ReportBlock) → flat_map blocks_in (receiver_reports ssrc blocks) ≡ blocks }
{}
