//! Laws of the definitions, as functions that do nothing when they run.

ghost use Rattle.std.specs.Prelude.{◌≡◌, ◌≤◌, ℕ, true, List, ◌∷◌, ◌++◌, length, map, Some};
ghost use Rattle.std.specs.List.{AllByRecursion, Contains};
ghost use Rattle.operator_lines.specs.Cut.{cut, line_limit, lines_of, is_too_long};
ghost use Rattle.desk_edit.specs.declared.command.Command.{Command as Said};
ghost use Rattle.desk_edit.specs.Asked.CallOf.{Group};
ghost use Rattle.desk_groups.specs.Making.{are_sized};
ghost use Rattle.desk_text.specs.Calls.{shape_of, call_line, AreCommands};
ghost use Rattle.desk_text.specs.declared.name.Name.{Name};
ghost use Rattle.operator_lines.specs.Forms.{places_of, form_of, all_topics};
ghost use Rattle.operator_lines.specs.Topics.{topic_of};
ghost use Rattle.operator_lines.specs.Why.{word_behind};
ghost use Rattle.operator_lines.specs.declared.topic.Topic.{Topic};
ghost use Rattle.operator_lines.specs.declared.topic.Topic.TheVariants.{Command};
ghost use Rattle.operator_lines.specs.laws.Read.{field_of_word};
ghost use Rattle.operator_lines.specs.laws.Whole.{HasNoLf, joined};

/// A line that is too long ends a stream: whatever comes afterwards, no line is added.
pub fn too_long_for_good()
    ensures stays { (before octets : List ℕ) → is_too_long before ≡ true → is_too_long (before ++ octets) ≡ true }
    ensures no_line { (before octets : List ℕ) → is_too_long before ≡ true
        → lines_of (before ++ octets) ≡ lines_of before }
{}

/// A stream is its parts, an LF behind each but the last, and no part has an LF.
pub fn cuts_are_whole()
    ensures whole { (stream : List ℕ) → joined (cut stream) ≡ stream }
    ensures ended { (stream : List ℕ) → AllByRecursion HasNoLf (cut stream).ended }
    ensures rest { (stream : List ℕ) → HasNoLf (cut stream).rest }
{}

/// Each group that `groups` tells fits on a line, so an operator can give it: its numbers are in range, and it has few
/// enough commands.
pub fn groups_fit_on_lines()
    ensures { (groups : List (List Said)) → are_sized groups ≡ true → AllByRecursion AreCommands groups
        → AllByRecursion (λ commands. length (call_line (Group commands)) ≤ line_limit) groups }
{}

/// The words that `help` tells of a command are those that it is read by, field by field.
pub fn help_tells_what_is_read()
    ensures { (name : Name) → map field_of_word (places_of (Command name)) ≡ map Some (shape_of name) }
{}

/// `help` tells the form of each line, which begins with the word that the line is read by.
pub fn help_tells_each_line()
    ensures all { (topic : Topic) → Contains all_topics topic }
    ensures begins { (topic : Topic) → topic_of (word_behind 0 (form_of topic)) ≡ Some topic }
{}
