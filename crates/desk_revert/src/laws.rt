//! Laws of reverts: functions that do nothing when they run.

ghost use Rattle.std.specs.Prelude.{◌≡◌, ℕ, Bool, true, false, List, [], ◌∷◌, ◌++◌, nat_eq, fold, filter, length, take};
ghost use Rattle.std.specs.Prelude.{None};
ghost use Rattle.std.specs.List.{list_all};
ghost use Rattle.desk_rows.specs.Desk.{Desk, good};
ghost use Rattle.desk_rows.specs.Edit.{EditOf};
ghost use Rattle.desk_rows.specs.Exchange.{fits, after};
ghost use Rattle.desk_edit.specs.declared.command.Command.{Command};
ghost use Rattle.desk_edit.specs.Commands.{desk_after};
ghost use Rattle.desk_edit.specs.Groups.{desk_after_all};
ghost use Rattle.desk_edit.specs.AsIf.{is_idle};
ghost use Rattle.desk_edit.specs.InForce.{Entry, carries, in_force, desk_with, desk_in_force, carried_out, took_back};
ghost use Rattle.desk_edit.specs.InForce.{numbers_rise, kept, again, is_other, is_plain};
ghost use Rattle.desk_edit.specs.Asked.{CallOf};
ghost use Rattle.desk_edit.specs.Calls.{CallHistory, no_calls, desk_now, refusal_of, after_call};
ghost use Rattle.desk_revert.specs.Follows.{Follows, Stands};
ghost use Rattle.desk_revert.specs.Sound.{IsSound};

/// A law: from a good desk one edit leads to any other good desk of the same bridge.
pub fn one_edit_leads()
    ensures { (d e : Desk) → good d ≡ true → good e ≡ true → e.bridge_ssrc ≡ d.bridge_ssrc
        → (edit : EditOf) × (fits d edit ≡ true) × (after d edit ≡ e) }
{}

/// A law: a command that asks for what is so already changes nothing.
pub fn idle_commands_change_nothing()
    ensures { (d : Desk) (command : Command) → good d ≡ true → is_idle d command ≡ true → desk_after d command ≡ d }
{}

/// A law: without reverts every entry of a history is in force. One more command or group makes of the desk what its
/// equations say.
pub fn no_reverts_no_change()
    ensures all { (done : List Entry) → list_all (λ e. carries e.deed) done ≡ true → in_force done ≡ done }
    ensures more { (start : Desk) (done : List Entry) (own : ℕ) (commands : List Command)
        → desk_in_force start (done ++ carried_out own commands ∷ [])
        ≡ desk_after_all (desk_in_force start done) commands }
{}

/// A law: a revert of a call that carried commands out gives the desk of all other entries in force, as if the call had
/// never been made.
pub fn reverted_calls_were_never_made()
    ensures { (start : Desk) (done : List Entry) (own number : ℕ) → list_all (is_plain number) done ≡ true
        → desk_in_force start (done ++ took_back own number ∷ [])
        ≡ fold desk_with start (filter (is_other number) (in_force done)) }
{}

/// A law: a revert's desk is made from the one of the entries that it leaves as they are, by carrying out again those
/// behind them that are in force without the call.
pub fn reverts_carry_out_again()
    ensures leads { (start : Desk) (done : List Entry) (own number : ℕ) → numbers_rise done ≡ true
        → desk_in_force start (done ++ took_back own number ∷ [])
        ≡ fold desk_with (desk_in_force start (kept number done)) (again number done) }
    ensures front { (done : List Entry) (number : ℕ) → kept number done ≡ take (length (kept number done)) done }
{}

/// A law: a revert of the newest call gives the desk before that call, be it a command, a group or a revert. So a
/// revert that is reverted leaves the desk that was there without it.
pub fn the_newest_call_reverted()
    ensures { (start : Desk) (done : List Entry) (e : Entry) (own : ℕ) → numbers_rise (done ++ e ∷ []) ≡ true
        → desk_in_force start ((done ++ e ∷ []) ++ took_back own e.number ∷ []) ≡ desk_in_force start done }
{}

/// A law: two reverts, neither of which takes the other back, give one desk in both orders.
pub fn reverts_commute()
    ensures { (start : Desk) (done : List Entry) (first second a b : ℕ) → nat_eq first a ≡ false
        → nat_eq first b ≡ false
        → desk_in_force start ((done ++ took_back first a ∷ []) ++ took_back second b ∷ [])
        ≡ desk_in_force start ((done ++ took_back first b ∷ []) ++ took_back second a ∷ []) }
{}

/// A law: edits that follow the entries of a history, each leading from the desk of the entries before it to the one
/// with its own, lead to the desk of all; so many of them lead to the desk of as many entries.
pub fn edits_lead_with_entries()
    ensures all { (fits : Desk → List EditOf → Bool) (after : Desk → List EditOf → Desk) (start : Desk)
        (done : List Entry) (edits : List (List EditOf)) → Follows fits after start [] done edits
        → fold after start edits ≡ desk_in_force start done }
    ensures first { (fits : Desk → List EditOf → Bool) (after : Desk → List EditOf → Desk) (start : Desk)
        (done : List Entry) (edits : List (List EditOf)) (count : ℕ) → Follows fits after start [] done edits
        → fold after start (take count edits) ≡ desk_in_force start (take count done) }
{}

/// A law: edits go on following entries when a new entry is done, when the last is undone, and when the one that was
/// undone last is done again, be it a command, a group or a revert.
pub fn edits_move_with_entries()
    ensures done { (fits : Desk → List EditOf → Bool) (after : Desk → List EditOf → Desk) (start : Desk)
        (done undone : List Entry) (edits back : List (List EditOf)) (entry : Entry) (es : List EditOf)
        → Stands fits after start done undone edits back → fits (desk_in_force start done) es ≡ true
        → after (desk_in_force start done) es ≡ desk_in_force start (done ++ entry ∷ [])
        → Stands fits after start (done ++ entry ∷ []) [] (edits ++ es ∷ []) [] }
    ensures undone { (fits : Desk → List EditOf → Bool) (after : Desk → List EditOf → Desk) (start : Desk)
        (done undone : List Entry) (edits back : List (List EditOf)) (entry : Entry) (es : List EditOf)
        → Stands fits after start (done ++ entry ∷ []) undone (edits ++ es ∷ []) back
        → Stands fits after start done (undone ++ entry ∷ []) edits (back ++ es ∷ []) }
    ensures again { (fits : Desk → List EditOf → Bool) (after : Desk → List EditOf → Desk) (start : Desk)
        (done undone : List Entry) (edits back : List (List EditOf)) (entry : Entry) (es : List EditOf)
        → Stands fits after start done (undone ++ entry ∷ []) edits (back ++ es ∷ [])
        → Stands fits after start (done ++ entry ∷ []) undone (edits ++ es ∷ []) back }
{}

/// A law: what accepted calls lead to is sound. Each call that isn't refused, of any kind, leads from a sound history
/// to a sound one, and the desk of a sound history is good.
pub fn histories_stay_sound()
    ensures begins { (start : Desk) → good start ≡ true → IsSound (no_calls start) }
    ensures goes_on { (h : CallHistory) (call : CallOf) → IsSound h → refusal_of h call ≡ None
        → IsSound (after_call h call) }
    ensures good { (h : CallHistory) → IsSound h → good (desk_now h) ≡ true }
{}
