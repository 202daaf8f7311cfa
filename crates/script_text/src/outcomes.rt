//! What is printed for a datagram that was taken in.

ghost use Rattle.std.specs.Prelude.{◌≡◌, ◌∷◌, ◌++◌, [], codes, map, OnOk};
ghost use Rattle.std.specs.List.{flat_map};
ghost use Rattle.ingress.specs.Ingested.{datagram_of};
ghost use Rattle.desk_text.specs.Text.{fixed, signed, line_text};
ghost use Rattle.script_text.specs.Datagrams.{outcome_text, up_text};

use desk_text::{Value, Word, print_line};
use ingress::{Disposition, Outcome};
use rtp_codec::Address;
use std::alloc::{AllocError, Allocator};

/// Appends the line of an outcome that carries no number.
fn print_name<A: Allocator>(name: &[u8], out: &mut Vec<u8, A>) -> Result<(), AllocError>
    ensures { OnOk result
        (out.new.items ≡ out.old.items ++ line_text (fixed (codes "rx") ∷ fixed name.now ∷ [])) }
{
    print_line(b"rx", &[Word::Fixed(name)], out)
}

/// Appends the line of a packet that was given an extended sequence number.
fn print_placed<A: Allocator>(name: &[u8], ext: i64, out: &mut Vec<u8, A>) -> Result<(), AllocError>
    ensures { OnOk result
        (out.new.items ≡ out.old.items ++ line_text (fixed (codes "rx") ∷ fixed name.now ∷ signed ext ∷ [])) }
{
    print_line(b"rx", &[Word::Fixed(name), Word::Signed(ext)], out)
}

/// Appends the line of an outcome.
pub(crate) fn print_outcome<A: Allocator>(
    outcome: &Outcome,
    out: &mut Vec<u8, A>,
) -> Result<(), AllocError>
    ensures { OnOk result (out.new.items ≡ out.old.items ++ outcome_text outcome.now) }
{
    let class = outcome.class();
    let name = class.kind.name();
    match class.disposition {
        Disposition::Dropped | Disposition::Probation => print_name(name, out),
        Disposition::OnTime { ext } => print_placed(name, ext, out),
        Disposition::Late { ext } => print_placed(name, ext, out),
        Disposition::Duplicate { ext } => print_placed(name, ext, out),
        Disposition::Restarted { ext } => print_placed(name, ext, out),
        Disposition::Compound { packets } => {
            let packets = Word::Value(Value::U64(packets as u64));
            print_line(b"rx", &[Word::Fixed(name), packets], out)
        }
    }
}

/// Appends the line of a datagram that is sent back to an address.
fn print_up<A: Allocator>(
    to: Address,
    octets: &[u8],
    out: &mut Vec<u8, A>,
) -> Result<(), AllocError>
    ensures { OnOk result (out.new.items ≡ out.old.items ++ up_text (to, octets.now)) }
{
    let to = Word::Value(Value::Address(to));
    print_line(b"up", &[to, Word::Hex(octets)], out)
}

/// Appends the lines of all datagrams that are sent back.
pub(crate) fn print_all_up<A: Allocator + Copy>(
    up: &[(Address, Vec<u8, A>)],
    out: &mut Vec<u8, A>,
) -> Result<(), AllocError>
    ensures { OnOk result (out.new.items ≡ out.old.items ++ flat_map up_text (map datagram_of up.now)) }
{
    for (to, octets) in up {
        print_up(*to, octets, out)?;
    }
    Ok(())
}
