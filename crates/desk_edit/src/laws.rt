//! Laws of commands: functions that do nothing when they run.

ghost use Rattle.std.specs.Prelude.{◌≡◌, true, None, ◌⊎◌};
ghost use Rattle.desk_rows.specs.declared.row.Row.{Row};
ghost use Rattle.desk_rows.specs.declared.key.Key.{Key};
ghost use Rattle.desk_rows.specs.Row.{has_key};
ghost use Rattle.desk_rows.specs.Desk.{Desk, good};
ghost use Rattle.desk_edit.specs.declared.command.Command.{Command};
ghost use Rattle.desk_edit.specs.Commands.{desk_after};
ghost use Rattle.desk_edit.specs.Depends.{goes_with, IsDependent};
ghost use Rattle.desk_edit.specs.Refusals.{refused};

/// A law: a removed row takes along all rows that depend on it, through any number of rows between, and no others.
pub fn dependent_rows_go()
    ensures all { (d : Desk) (key : Key) (r : Row) → IsDependent d key r → goes_with d key r ≡ true }
    ensures only { (d : Desk) (key : Key) (r : Row) → goes_with d key r ≡ true
        → (has_key key r ≡ true) ⊎ IsDependent d key r }
{}

/// A law: a command that is not refused leaves a good desk.
pub fn good_desks_stay_good()
    ensures { (d : Desk) (command : Command) → good d ≡ true → refused d command ≡ None
        → good (desk_after d command) ≡ true }
{}
