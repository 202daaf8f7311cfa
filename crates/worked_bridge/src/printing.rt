//! What is printed, and the exit statuses.

ghost use Rattle.std.specs.Prelude.{◌≡◌, [], ◌∷◌, codes, pos, negsuc, IfOk, OnOk, None, Some};
ghost use Rattle.bridge_core.specs.Sent.{Sent, sent_of};

use bridge_core::Egress;
use desk_calls::Reply;
use desk_edit::{Reason, Refusal, Standing, Table};
use desk_text::{Fault, print_reply};
use script_text::{RunFault, print_egress, status};
use std::alloc::{AllocError, Global};

/// The line of an accepted call.
pub fn prints_an_answer(out: &mut Vec<u8>) -> Result<(), AllocError>
    requires { out.old.items ≡ [] }
    ensures { OnOk result (out.new.items ≡ codes "ok 12\n") }
{
    print_reply(&Reply::Accepted { no: 12 }, out)
}

/// The line of a refusal without a number in it.
pub fn prints_a_refusal(out: &mut Vec<u8>) -> Result<(), AllocError>
    requires { out.old.items ≡ [] }
    ensures { OnOk result (out.new.items ≡ codes "no 4 15 NothingToUndo\n") }
{
    let reply = Reply::Refused {
        at: 4,
        why: Refusal::NothingToUndo,
    };
    print_reply(&reply, out)
}

/// The line of a refused call.
pub fn prints_a_full_table(alloc: Global) -> Result<Vec<u8>, AllocError>
    ensures { IfOk result (λ out. out.items ≡ codes "no 64 12 Full rooms 64\n") }
{
    let mut out = Vec::new(alloc);
    let why = Refusal::Full {
        table: Table::Rooms,
        limit: 64,
    };
    print_reply(&Reply::Refused { at: 64, why }, &mut out)?;
    Ok(out)
}

/// The line of a refused group: its size, or the number of its part with what stands against that.
pub fn prints_a_refused_group(why: Refusal, out: &mut Vec<u8>) -> Result<(), AllocError>
    requires { out.old.items ≡ [] }
    ensures empty { why ≡ Refusal.EmptyGroup → OnOk result (out.new.items ≡ codes "no 6 18 EmptyGroup\n") }
    ensures long { why ≡ Refusal.GroupTooLong 64 → OnOk result (out.new.items ≡ codes "no 6 19 GroupTooLong 64\n") }
    ensures part { why ≡ Refusal.PartRefused 2 Reason.NoMember
        → OnOk result (out.new.items ≡ codes "no 6 20 PartRefused 2 3 NoMember\n") }
    ensures full { why ≡ Refusal.PartRefused 63 (Reason.Full Table.Rooms 64)
        → OnOk result (out.new.items ≡ codes "no 6 20 PartRefused 63 12 Full rooms 64\n") }
{
    print_reply(&Reply::Refused { at: 6, why }, out)
}

/// The line of a refused revert: what stands in its way, or who would come or go with it.
pub fn prints_a_refused_revert(why: Refusal, out: &mut Vec<u8>) -> Result<(), AllocError>
    requires { out.old.items ≡ [] }
    ensures gone { why ≡ Refusal.NotInForce → OnOk result (out.new.items ≡ codes "no 40 23 NotInForce\n") }
    ensures far { why ≡ Refusal.TooFar 256 → OnOk result (out.new.items ≡ codes "no 40 24 TooFar 256\n") }
    ensures conflict { why ≡ Refusal.Conflict 37 0 Reason.NoSource
        → OnOk result (out.new.items ≡ codes "no 40 25 Conflict 37 0 4 NoSource\n") }
    ensures full { why ≡ Refusal.Conflict 37 2 (Reason.Full Table.Rooms 64)
        → OnOk result (out.new.items ≡ codes "no 40 25 Conflict 37 2 12 Full rooms 64\n") }
    ensures elsewhere { why ≡ Refusal.Elsewhere Standing.Member 20
        → OnOk result (out.new.items ≡ codes "no 40 26 Elsewhere member 20\n") }
{
    print_reply(&Reply::Refused { at: 40, why }, out)
}

/// The line of a packet behind another line.
pub fn prints_a_packet(egress: &Egress, out: &mut Vec<u8>) -> Result<(), AllocError>
    requires packet { sent_of egress.now ≡ Sent.media record {
      version = 6;
      item = 1;
      to = record { ip = 10 ∷ 0 ∷ 0 ∷ 2 ∷ []; port = 5000 };
      ssrc = 501;
      number = 65535;
      bytes = 129 ∷ 100 ∷ 15 ∷ 240 ∷ [];
      resent_by = None;
    } }
    requires behind { out.old.items ≡ codes "ok 6\n" }
    ensures { OnOk result (out.new.items ≡ codes "ok 6\ntx 6 1 10.0.0.2:5000 501 65535 81640ff0\n") }
{
    print_egress(egress, out)
}

/// The line of a packet that is sent again, by version 11.
pub fn prints_a_resend(egress: &Egress, out: &mut Vec<u8>) -> Result<(), AllocError>
    requires packet { sent_of egress.now ≡ Sent.media record {
      version = 6;
      item = 1;
      to = record { ip = 10 ∷ 0 ∷ 0 ∷ 2 ∷ []; port = 5000 };
      ssrc = 501;
      number = 0;
      bytes = 129 ∷ 228 ∷ [];
      resent_by = Some 11;
    } }
    requires behind { out.old.items ≡ [] }
    ensures { OnOk result (out.new.items ≡ codes "re 11 6 1 10.0.0.2:5000 501 0 81e4\n") }
{
    print_egress(egress, out)
}

/// The line of an RTCP compound.
pub fn prints_a_compound(egress: &Egress, out: &mut Vec<u8>) -> Result<(), AllocError>
    requires compound { sent_of egress.now ≡ Sent.control record {
      version = 6;
      item = 2;
      to = record { ip = 10 ∷ 0 ∷ 0 ∷ 1 ∷ []; port = 5000 };
      ssrc = 501;
      bytes = 128 ∷ 201 ∷ 0 ∷ 1 ∷ [];
    } }
    requires behind { out.old.items ≡ [] }
    ensures { OnOk result (out.new.items ≡ codes "ct 6 2 10.0.0.1:5000 80c90001\n") }
{
    print_egress(egress, out)
}

/// The line of a receiver that had more packets than were sent, and its highest from a source.
pub fn prints_a_note(egress: &Egress, out: &mut Vec<u8>) -> Result<(), AllocError>
    requires note { sent_of egress.now ≡ Sent.note record {
      version = 6;
      item = 3;
      from = record { ip = 10 ∷ 0 ∷ 0 ∷ 2 ∷ []; port = 5000 };
      note = record { out_ssrc = 501; fraction = 64; lost = negsuc 1; source = Some (101, negsuc 7) };
    } }
    requires behind { out.old.items ≡ [] }
    ensures { OnOk result (out.new.items ≡ codes "note 6 3 10.0.0.2:5000 501 64 -2 101 -8\n") }
{
    print_egress(egress, out)
}

/// The line of a receiver whose highest packet leads back to none of a source.
pub fn prints_a_note_without_a_source(egress: &Egress, out: &mut Vec<u8>) -> Result<(), AllocError>
    requires note { sent_of egress.now ≡ Sent.note record {
      version = 6;
      item = 3;
      from = record { ip = 10 ∷ 0 ∷ 0 ∷ 2 ∷ []; port = 5000 };
      note = record { out_ssrc = 501; fraction = 0; lost = pos 1; source = None };
    } }
    requires behind { out.old.items ≡ [] }
    ensures { OnOk result (out.new.items ≡ codes "note 6 3 10.0.0.2:5000 501 0 1 - -\n") }
{
    print_egress(egress, out)
}

/// A script that ended well.
pub fn ends_well_with_0() -> u8
    ensures { result ≡ 0 }
{
    status(&Ok(()))
}

/// A faulty script.
pub fn a_fault_ends_with_1() -> u8
    ensures { result ≡ 1 }
{
    status(&Err(RunFault::Script {
        line: 1,
        word: 4,
        fault: Fault::BadNumber,
    }))
}

/// Out of memory.
pub fn out_of_memory_ends_with_2() -> u8
    ensures { result ≡ 2 }
{
    status(&Err(RunFault::OutOfMemory))
}

/// A reader that failed.
pub fn a_failed_read_ends_with_3() -> u8
    ensures { result ≡ 3 }
{
    status(&Err(RunFault::Read))
}

/// A writer that failed.
pub fn a_failed_write_ends_with_3() -> u8
    ensures { result ≡ 3 }
{
    status(&Err(RunFault::Write))
}
