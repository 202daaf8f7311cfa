//! Sequence numbers: 16 bits that wrap round (RFC 3550 section 5.1).

ghost use Rattle.std.specs.Prelude.{◌≡◌};
ghost use Rattle.rtp_codec.specs.Sequence.{next, distance};

/// The next sequence number. After 65535 comes 0.
pub fn seq_next(seq: u16) -> u16
    ensures { result ≡ next seq }
{
    seq.wrapping_add(1)
}

/// The steps forward from one sequence number to another, modulo 65536: 1 from 65535 to 0, 65535 from 0 to 65535.
pub fn seq_distance(from: u16, to: u16) -> u16
    ensures { result ≡ distance from to }
{
    to.wrapping_sub(from)
}
