//! The rows of what is counted.

ghost use Rattle.std.specs.Prelude.{◌≡◌};
ghost use Rattle.bridge_stats.specs.Shown.{sender_address, kind_line, kind_text, source_line, stranger_line};
ghost use Rattle.bridge_stats.specs.inner.Growing.{buffer_of, Grows};

use crate::appending::{LineField, append, append_line, append_longest_line};
use crate::lines::StatLine;
use crate::numbers::SourceNumbers;
use crate::received::reception_fields;
use crate::sender::Sender;
use crate::stranger::StrangerNumbers;
use crate::why::why_fields;
use ingress::{OutcomeKind, Reception};
use rtp_codec::Address;
use std::alloc::{AllocError, Allocator};

/// How many datagrams had an outcome of a kind.
#[derive(Clone, Copy)]
pub struct KindRow {
    /// The kind.
    pub kind: OutcomeKind,
    /// How many had it.
    pub datagrams: u64,
    /// How many octets these had.
    pub octets: u64,
}

/// What is counted of a source.
#[derive(Clone, Copy)]
pub struct SourceRow {
    /// Its address and SSRC.
    pub sender: Sender,
    /// What is counted of it.
    pub numbers: SourceNumbers,
    /// How many whole milliseconds ago its last datagram came.
    pub ago: u64,
    /// How the receive side receives it. `None` if the receive side doesn't know it.
    pub reception: Option<Reception>,
}

/// What is counted of a sender that is no source.
#[derive(Clone, Copy)]
pub struct StrangerRow {
    /// Its address and SSRC.
    pub sender: Sender,
    /// What is counted of it.
    pub numbers: StrangerNumbers,
}

/// Where a sender's packets come from.
pub(crate) fn sender_address(sender: &Sender) -> Address
    ensures { result ≡ sender_address sender.now }
{
    Address {
        ip: sender.ip,
        port: sender.port,
    }
}

/// Appends the line of an outcome.
fn append_kind<A: Allocator>(row: &KindRow, out: &mut Vec<u8, A>) -> Result<(), AllocError>
    ensures { Grows (buffer_of out.old) (buffer_of out.new) (kind_line row.now) result }
{
    let fields = [
        LineField::Number(row.datagrams),
        LineField::Words(b"octets"),
        LineField::Number(row.octets),
        LineField::Words(row.kind.name()),
    ];
    append_line(b"datagrams", &fields, out)
}

impl StatLine for KindRow {
    ghost line = { kind_text };

    fn append<A: Allocator>(&self, out: &mut Vec<u8, A>) -> Result<(), AllocError> {
        if self.datagrams == 0 {
            append(b"", out)
        } else {
            append_kind(self, out)
        }
    }
}

impl StatLine for SourceRow {
    ghost line = { source_line };

    fn append<A: Allocator>(&self, out: &mut Vec<u8, A>) -> Result<(), AllocError> {
        let numbers = &self.numbers;
        let counts = [
            LineField::Place(sender_address(&self.sender)),
            LineField::Number(u64::from(self.sender.ssrc)),
            LineField::Words(b"packets"),
            LineField::Number(numbers.packets),
            LineField::Words(b"octets"),
            LineField::Number(numbers.octets),
            LineField::Words(b"late"),
            LineField::Number(numbers.late),
            LineField::Words(b"duplicate"),
            LineField::Number(numbers.duplicates),
            LineField::Words(b"dropped"),
            LineField::Number(numbers.dropped),
            LineField::Words(b"expected"),
            LineField::Number(numbers.expected),
            LineField::Words(b"lost"),
            LineField::Number(numbers.expected.saturating_sub(numbers.received)),
            LineField::Words(b"ago"),
            LineField::Number(self.ago),
        ];
        let received = reception_fields(self.reception, numbers);
        let why = why_fields(self.reception, numbers);
        append_longest_line(b"source", &counts, &received, &why, out)
    }
}

impl StatLine for StrangerRow {
    ghost line = { stranger_line };

    fn append<A: Allocator>(&self, out: &mut Vec<u8, A>) -> Result<(), AllocError> {
        let fields = [
            LineField::Place(sender_address(&self.sender)),
            LineField::Number(u64::from(self.sender.ssrc)),
            LineField::Words(b"type"),
            LineField::Number(u64::from(self.numbers.pt)),
            LineField::Words(b"packets"),
            LineField::Number(self.numbers.packets),
        ];
        append_line(b"stranger", &fields, out)
    }
}
