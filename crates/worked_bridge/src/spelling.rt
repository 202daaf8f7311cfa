//! What lines spell.

ghost use Rattle.std.specs.Prelude.{◌≡◌, ◌≢◌, ℕ, [], ◌∷◌, codes, Ok, Err, IfOk};
ghost use Rattle.desk_edit.specs.Asked.{CallOf, asked_by};

use desk_edit::{Call, Command};
use desk_rows::Codec;
use desk_text::{Fault, ParseFault, parse_desk};
use std::alloc::Global;

/// A call of an undo: its number may be the greatest, and no greater, and no word stands behind it.
pub fn spells_an_undo(alloc: Global, text: &[u8]) -> Result<Call, ParseFault>
    ensures undo { text.now ≡ codes "undo 18" → result ≡ Ok (Call.Undo 18) }
    ensures most { text.now ≡ codes "undo 18446744073709551615" → result ≡ Ok (Call.Undo 18446744073709551615) }
    ensures more { text.now ≡ codes "undo 18446744073709551616" → result ≡ Err (ParseFault.Line 2 Fault.BadNumber) }
    ensures behind { text.now ≡ codes "undo 1 2" → result ≡ Err (ParseFault.Line 3 Fault.ExtraWord) }
{
    parse_desk(alloc, text)
}

/// A call of a revert: it names a call of any number, and no word stands behind that.
pub fn spells_a_revert(alloc: Global, text: &[u8]) -> Result<Call, ParseFault>
    ensures revert { text.now ≡ codes "revert 7" → result ≡ Ok (Call.Revert 7) }
    ensures most { text.now ≡ codes "revert 18446744073709551615" → result ≡ Ok (Call.Revert 18446744073709551615) }
    ensures missing { text.now ≡ codes "revert" → result ≡ Err (ParseFault.Line 2 Fault.MissingWord) }
    ensures behind { text.now ≡ codes "revert 7 8" → result ≡ Err (ParseFault.Line 3 Fault.ExtraWord) }
{
    parse_desk(alloc, text)
}

/// A call that adds a room. A rate may stand behind the room, and is else 8000 Hz.
pub fn spells_a_room(alloc: Global, text: &[u8]) -> Result<Call, ParseFault>
    ensures music { text.now ≡ codes "add-room 1 44100"
        → result ≡ Ok (Call.Apply (Command.AddRoom (record { room = 1; rate = 44100 }))) }
    ensures usual { text.now ≡ codes "add-room 1"
        → result ≡ Ok (Call.Apply (Command.AddRoom (record { room = 1; rate = 8000 }))) }
    ensures number { text.now ≡ codes "add-room 1 x" → result ≡ Err (ParseFault.Line 3 Fault.BadNumber) }
    ensures behind { text.now ≡ codes "add-room 1 8000 2" → result ≡ Err (ParseFault.Line 4 Fault.ExtraWord) }
{
    parse_desk(alloc, text)
}

/// A call of one command. The empty text has no word.
pub fn spells_a_command(alloc: Global, text: &[u8]) -> Result<Call, ParseFault>
    ensures member { text.now ≡ codes "add-member 1 2 3.4.5.6:7 l16 8 9 10"
        → result ≡ Ok (Call.Apply (Command.AddMember (record {
          member = 1;
          room = 2;
          address = record { ip = 3 ∷ 4 ∷ 5 ∷ 6 ∷ []; port = 7 };
          codec = Codec.L16;
          out_audio = 8;
          first_seq = 9;
          first_ts = 10;
        }))) }
    ensures address { text.now ≡ codes "add-member 1 2 3.4.5.06:7 l16 8 9 10"
        → result ≡ Err (ParseFault.Line 4 Fault.BadAddress) }
    ensures number { text.now ≡ codes "add-room x" → result ≡ Err (ParseFault.Line 2 Fault.BadNumber) }
    ensures nothing { text.now ≡ [] → result ≡ Err (ParseFault.Line 1 Fault.MissingWord) }
{
    parse_desk(alloc, text)
}

/// A call of a group: commands with a `/` between them, and no other call among them.
pub fn spells_a_group(alloc: Global, text: &[u8]) -> Result<Call, ParseFault>
    ensures two { text.now ≡ codes "group add-room 7 / remove-room 7"
        → IfOk result (λ call. asked_by call ≡ CallOf.Group
        (Command.AddRoom (record { room = 7; rate = 8000 }) ∷ Command.RemoveRoom 7 ∷ [])) }
    ensures good { text.now ≡ codes "group add-room 7 / remove-room 7" → (word : ℕ) (fault : Fault)
        → result ≢ Err (ParseFault.Line word fault) }
    ensures empty { text.now ≡ codes "group" → IfOk result (λ call. ⊥) }
    ensures missing { text.now ≡ codes "group" → (word : ℕ) (fault : Fault)
        → result ≡ Err (ParseFault.Line word fault) → (word ≡ 2) × (fault ≡ Fault.MissingWord) }
    ensures undo { text.now ≡ codes "group add-room 7 / undo 1" → (word : ℕ) (fault : Fault)
        → result ≡ Err (ParseFault.Line word fault) → (word ≡ 5) × (fault ≡ Fault.UnknownWord) }
{
    parse_desk(alloc, text)
}
