//! Numbers at the front of octets, in network order.

ghost use Rattle.std.specs.Prelude.{◌≡◌, ◌+◌, ◌≤◌, ◌++◌, length};
ghost use Rattle.std.specs.Int.{w16, w32, w64, to_be_bytes};

/// The 16-bit number at the front, and what follows it.
pub(crate) fn u16_from(octets: &[u8]) -> (u16, &[u8])
    requires { 2 ≤ length octets.now }
    ensures parts { octets.now ≡ to_be_bytes w16 result.0 ++ result.1.now }
    ensures left { length octets.now ≡ 2 + length result.1.now }
{
    let (front, rest) = octets.split_at(2);
    (u16::from_be_bytes([front[0], front[1]]), rest)
}

/// The 32-bit number at the front, and what follows it.
pub(crate) fn u32_from(octets: &[u8]) -> (u32, &[u8])
    requires { 4 ≤ length octets.now }
    ensures parts { octets.now ≡ to_be_bytes w32 result.0 ++ result.1.now }
    ensures left { length octets.now ≡ 4 + length result.1.now }
{
    let (front, rest) = octets.split_at(4);
    let number = u32::from_be_bytes([front[0], front[1], front[2], front[3]]);
    (number, rest)
}

/// The 64-bit number at the front, and what follows it.
pub(crate) fn u64_from(octets: &[u8]) -> (u64, &[u8])
    requires { 8 ≤ length octets.now }
    ensures parts { octets.now ≡ to_be_bytes w64 result.0 ++ result.1.now }
    ensures left { length octets.now ≡ 8 + length result.1.now }
{
    let (front, rest) = octets.split_at(8);
    let number = u64::from_be_bytes([
        front[0], front[1], front[2], front[3], front[4], front[5], front[6], front[7],
    ]);
    (number, rest)
}
