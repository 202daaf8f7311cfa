//! What a row shares with no other row.

ghost use Rattle.std.specs.Prelude.{◌≡◌};
ghost use Rattle.std.specs.List.{list_any};
ghost use Rattle.desk_rows.specs.Few.{listed};
ghost use Rattle.desk_rows.specs.Row.{claim_numbers, same_claim};

use crate::few::Few;
use crate::key::Key;
use rtp_codec::Address;

/// A value that only one row of a desk may have.
// Keys, addresses, SSRCs and slots' places all have to be distinct, over different kinds of row. As claims they are one
// rule, and a further kind of row is a case in the list of claims.
#[derive(Clone, Copy)]
pub enum Claim {
    /// A key.
    Key(Key),
    /// The address of a member.
    Address(Address),
    /// An SSRC of a source, an outgoing stream or the bridge.
    Ssrc(u32),
    /// The index of a slot among those of its member.
    Place {
        /// The member.
        member: u32,
        /// The index, 0 to 15.
        index: u32,
    },
}

impl Claim {
    /// Numbers that are equal for equal claims only.
    fn numbers(&self) -> [u32; 6]
        ensures { result ≡ claim_numbers self.now }
    {
        match self {
            Claim::Key(key) => {
                let [kind, first, second] = key.numbers();
                [0, kind, first, second, 0, 0]
            }
            Claim::Address(address) => {
                let [a, b, c, d] = address.ip;
                let ip = [u32::from(a), u32::from(b), u32::from(c), u32::from(d)];
                let [a, b, c, d] = ip;
                [1, u32::from(address.port), a, b, c, d]
            }
            Claim::Ssrc(ssrc) => [2, *ssrc, 0, 0, 0, 0],
            Claim::Place { member, index } => [3, *member, *index, 0, 0, 0],
        }
    }

    /// Whether both claims are equal.
    fn is_same(&self, other: &Claim) -> bool
        ensures { result ≡ same_claim self.now other.now }
    {
        self.numbers() == other.numbers()
    }

    /// Whether it is one of these claims.
    pub(crate) fn is_among(&self, claims: Few<Claim>) -> bool
        ensures { result ≡ list_any (same_claim self.now) (listed claims) }
    {
        match claims {
            Few::Nothing => false,
            Few::One(claim) => self.is_same(&claim),
            Few::Two(claim, other) => self.is_same(&claim) || self.is_same(&other),
        }
    }
}
