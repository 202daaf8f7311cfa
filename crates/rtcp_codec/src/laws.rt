//! Laws of the definitions, as functions that do nothing when they run.

ghost use Rattle.std.specs.Prelude.{ℕ, ◌<◌, ◌^◌, ◌⊎◌, List};
ghost use Rattle.std.specs.List.{AllByRecursion};
ghost use Rattle.rtp_codec.specs.Octets.{AreOctets};
ghost use Rattle.rtcp_codec.specs.declared.fault.RtcpFault.{RtcpFault as Fault};
ghost use Rattle.rtcp_codec.specs.declared.nack.NackWord.{NackWord};
ghost use Rattle.rtcp_codec.specs.Nack.{IsPacking};
ghost use Rattle.rtcp_codec.specs.Packet.{Packet};
ghost use Rattle.rtcp_codec.specs.Compound.{IsCompound, HasFault};

/// Any octets are a compound or have a fault.
pub fn compound_or_fault()
    ensures { (octets : List ℕ) → AreOctets octets
        → ((ps : List Packet) × IsCompound ps octets) ⊎ ((f : Fault) × HasFault f octets) }
{}

/// Each list of sequence numbers has words that name it in order, each word as many numbers as it can.
pub fn numbers_have_words()
    ensures { (numbers : List ℕ) → AllByRecursion (λ n. n < 2 ^ 16) numbers
        → (words : List NackWord) × IsPacking numbers words }
{}
