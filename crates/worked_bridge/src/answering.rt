//! What whole scripts give.

ghost use Rattle.std.specs.Prelude.{◌≡◌, ◌++◌, ℕ, Some, [], codes, IfOk};

use desk_text::Fault;
use script_text::{RunFault, output};
use std::alloc::Global;

/// An empty script gives nothing.
pub fn an_empty_script(alloc: Global) -> Result<Vec<u8>, RunFault>
    ensures { IfOk result (λ out. out.items ≡ []) }
{
    let out = output(alloc, b"")?;
    Ok(out)
}

/// A room of no number is a fault.
pub fn a_room_of_no_number(alloc: Global) -> Option<RunFault>
    ensures { (line word : ℕ) (fault : Fault) → result ≡ Some (RunFault.Script line word fault)
        → (line ≡ 1) × (word ≡ 4) × (fault ≡ Fault.BadNumber) }
{
    output(alloc, b"desk 0 add-room x").err()
}

/// A room is added.
pub fn a_script_adds_a_room(alloc: Global) -> Result<Vec<u8>, RunFault>
    ensures { IfOk result (λ out. out.items ≡ codes "ok 1\n") }
{
    let out = output(alloc, b"desk 0 add-room 1\n")?;
    Ok(out)
}

/// A script says who its bridge is, and adds a room.
pub fn a_script_names_its_bridge(alloc: Global) -> Result<Vec<u8>, RunFault>
    ensures { IfOk result (λ out. out.items ≡ codes "ok 1\n") }
{
    let out = output(alloc, b"bridge 7 conf renew\ndesk 0 add-room 1\n")?;
    Ok(out)
}

/// The usual setup.
pub fn a_script_sets_up(alloc: Global) -> Result<Vec<u8>, RunFault>
    ensures { IfOk result (λ out. out.items ≡ codes "ok 1\nok 2\nok 3\nok 4\nok 5\nok 6\n") }
{
    let out = output(
        alloc,
        b"desk 0 add-room 1\n\
          desk 0 add-member 10 1 10.0.0.1:5000 pcmu 9001 0 0\n\
          desk 0 add-member 11 1 10.0.0.2:5000 pcmu 9002 0 0\n\
          desk 0 add-source 101 10 video\n\
          desk 0 add-slot 501 11 0 65535 1000\n\
          desk 0 subscribe 501 101\n",
    )?;
    Ok(out)
}

/// A frame behind the usual setup.
pub fn a_script_sends_a_frame(alloc: Global) -> Result<Vec<u8>, RunFault>
    ensures { IfOk result (λ out. out.items ≡ codes "ok 1\nok 2\nok 3\nok 4\nok 5\nok 6\n"
        ++ codes "tx 6 1 10.0.0.2:5000 501 65535 8164ffff000003e8000001f500000065aabb\n"
        ++ codes "tx 6 1 10.0.0.2:5000 501 0 81e40000000003e8000001f500000065cc\n") }
{
    let out = output(
        alloc,
        b"desk 0 add-room 1\n\
          desk 0 add-member 10 1 10.0.0.1:5000 pcmu 9001 0 0\n\
          desk 0 add-member 11 1 10.0.0.2:5000 pcmu 9002 0 0\n\
          desk 0 add-source 101 10 video\n\
          desk 0 add-slot 501 11 0 65535 1000\n\
          desk 0 subscribe 501 101\n\
          frame 1000000000 10.0.0.1:5000 101 1 90000 7/0/100/aabb 8/1/100/cc\n",
    )?;
    Ok(out)
}

/// The rows behind the usual setup.
pub fn a_script_shows_rows(alloc: Global) -> Result<Vec<u8>, RunFault>
    ensures { IfOk result (λ out. out.items ≡ codes "ok 1\nok 2\nok 3\nok 4\nok 5\nok 6\nroom 1\n"
        ++ codes "member 0 10 1 10.0.0.1:5000 pcmu 9001 0 0\nmember 1 11 1 10.0.0.2:5000 pcmu 9002 0 0\n"
        ++ codes "source 101 10 video\nslot 501 11 0 65535 1000\nsub 501 101\nend 6\n") }
{
    let out = output(
        alloc,
        b"desk 0 add-room 1\n\
          desk 0 add-member 10 1 10.0.0.1:5000 pcmu 9001 0 0\n\
          desk 0 add-member 11 1 10.0.0.2:5000 pcmu 9002 0 0\n\
          desk 0 add-source 101 10 video\n\
          desk 0 add-slot 501 11 0 65535 1000\n\
          desk 0 subscribe 501 101\n\
          show\n",
    )?;
    Ok(out)
}

/// A group is one call, and one undo takes all of it back.
pub fn a_script_takes_a_group_back(alloc: Global) -> Result<Vec<u8>, RunFault>
    ensures { IfOk result (λ out. out.items ≡ codes "ok 1\nok 2\nend 2\n") }
{
    let out = output(
        alloc,
        b"desk 0 group add-room 1 / add-room 2\ndesk 0 undo 1\nshow\n",
    )?;
    Ok(out)
}
