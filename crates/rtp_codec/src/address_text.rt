//! How addresses are written.

ghost use Rattle.std.specs.Prelude.{◌≡◌, ◌≤◌, ◌+◌, ◌++◌, decimal, length};
ghost use Rattle.arrayvec.specs.ArrayString.{array_string_len};
ghost use Rattle.rtp_codec.specs.Address.{address_text};

use crate::address::Address;
use arrayvec::ArrayString;
use itoa::Buffer;
use std::fmt;
use std::marker::Model;

/// How many octets the longest one has: `255.255.255.255:65535`.
const LONGEST_ADDRESS: usize = 21;

/// An address as it is written: four numbers with dots between, a colon, and the port.
///
/// Contracts see its octets.
#[derive(Drop)]
pub struct AddressText {
    text: ArrayString<LONGEST_ADDRESS>,
}

impl Model for AddressText {
    ghost use Rattle.std.specs.Prelude.{ℕ, List};

    ghost Value = { List ℕ };

    ghost view = { λ a. a.text.bytes };
}

impl AddressText {
    /// The text.
    pub fn as_str(&self) -> &str
        ensures { result.now ≡ self.now }
    {
        self.text.as_str()
    }
}

/// Appends a number and the mark behind it.
fn push_part(text: &mut ArrayString<LONGEST_ADDRESS>, number: u8, mark: &str)
    requires { array_string_len text.old + 3 + length mark.now ≤ LONGEST_ADDRESS }
    ensures text { text.new.bytes ≡ text.old.bytes ++ decimal number ++ mark.now }
    ensures few { array_string_len text.new ≤ array_string_len text.old + 3 + length mark.now }
{
    let mut buffer = Buffer::new();
    text.push_str(buffer.format(number));
    text.push_str(mark);
}

impl Address {
    /// How it is written. Whoever prints an address prints this.
    pub fn text(&self) -> AddressText
        ensures { result ≡ address_text self.now }
    {
        let [a, b, c, d] = self.octets();
        let mut text = ArrayString::new();
        push_part(&mut text, a, ".");
        push_part(&mut text, b, ".");
        push_part(&mut text, c, ".");
        push_part(&mut text, d, ":");
        let mut buffer = Buffer::new();
        text.push_str(buffer.format(self.port));
        AddressText { text }
    }
}

impl fmt::Display for Address {
    ghost use Rattle.std.specs.Prelude.{Some};

    ghost output = { λ address. Some (address_text address) };

    fn fmt<W: fmt::Write>(&self, f: &mut fmt::Formatter<W>) -> fmt::Result {
        let text = self.text();
        let text = text.as_str();
        write!(f, "{text}")
    }
}
