//! Laws of the definitions, in the words of a line's grammar.

ghost use Rattle.std.specs.Prelude.{◌≡◌, ℕ, ℤ, pos, ◌^◌, ◌<◌, ◌≤◌, List, ◌∷◌, ◌++◌, map, Some, Ok, codes};
ghost use Rattle.std.specs.Fmt.{decimal, signed_decimal};
ghost use Rattle.std.specs.List.{join_with_byte, All};
ghost use Rattle.rtp_codec.specs.declared.address.Address.{Address};
ghost use Rattle.desk_rows.specs.Desk.{Desk as Rows};
ghost use Rattle.desk_edit.specs.declared.refusal.Reason.{Reason};
ghost use Rattle.desk_edit.specs.Reasons.{refusal_for};
ghost use Rattle.desk_edit.specs.Told.{told_of};
ghost use Rattle.desk_edit.specs.Refusals.{first_case};
ghost use Rattle.desk_edit.specs.AsIf.{moved_keys};
ghost use Rattle.desk_edit.specs.InForce.{desk_in_force, kept, again};
ghost use Rattle.desk_edit.specs.Reverts.{as_if};
ghost use Rattle.desk_edit.specs.Calls.{CallHistory, refusal_at};
ghost use Rattle.desk_text.specs.Judged.{conflict_cases, elsewhere_cases, part_cases, call_cases, case_numbers};
ghost use Rattle.desk_text.specs.Judged.{turn_of, Rises, IsSingle};
ghost use Rattle.desk_text.specs.Text.{told_words, reason_words};
ghost use Rattle.desk_text.specs.Words.{words_of, Lacks};
ghost use Rattle.desk_text.specs.Numbers.{decimal_of, ext_of, FitsExt, SpellsExt};
ghost use Rattle.rtp_codec.specs.Address.{address_text};
ghost use Rattle.desk_text.specs.Addresses.{address_of, IsAddress};
ghost use Rattle.desk_edit.specs.Asked.{CallOf};
ghost use Rattle.desk_edit.specs.Asked.CallOf.{Group, Revert};
ghost use Rattle.desk_edit.specs.declared.command.Command.{Command};
ghost use Rattle.desk_text.specs.Calls.{call_of, call_line, SpellCall, IsCall};
ghost use Rattle.desk_text.specs.Lines.{parts_of};

/// The words of a line have no space, and with single spaces between them they are the line; no
/// others do. So it is with the parts of a script between its LFs.
pub fn pieces_join()
    ensures words { (line : List ℕ) → join_with_byte 32 (words_of line) ≡ line }
    ensures no_space { (line : List ℕ) → All (Lacks 32) (words_of line) }
    ensures only_words { (word : List ℕ) (words : List (List ℕ)) → All (Lacks 32) (word ∷ words)
        → words_of (join_with_byte 32 (word ∷ words)) ≡ word ∷ words }
    ensures parts { (text : List ℕ) → join_with_byte 10 (parts_of text) ≡ text }
    ensures no_lf { (text : List ℕ) → All (Lacks 10) (parts_of text) }
    ensures only_parts { (part : List ℕ) (parts : List (List ℕ)) → All (Lacks 10) (part ∷ parts)
        → parts_of (join_with_byte 10 (part ∷ parts)) ≡ part ∷ parts }
{}

/// A word spells a number where it is what is printed of it, and the number is in range.
pub fn number_words()
    ensures spelled { (max n : ℕ) (word : List ℕ) → max < 2 ^ 64 → decimal_of max word ≡ Some n
        → (word ≡ decimal n) × (n ≤ max) }
    ensures read { (max n : ℕ) → max < 2 ^ 64 → n ≤ max → decimal_of max (decimal n) ≡ Some n }
{}

/// A word spells an extended sequence number where it is what is printed of it; `-0` spells 0 too.
pub fn ext_words()
    ensures spelled { (word : List ℕ) (z : ℤ) → ext_of word ≡ Some z → FitsExt z × SpellsExt word z }
    ensures read { (z : ℤ) → FitsExt z → ext_of (signed_decimal z) ≡ Some z }
    ensures minus_zero { ext_of (codes "-0") ≡ Some (pos 0) }
{}

/// A word spells an address where it is what is printed of it, with numbers in range.
pub fn address_words()
    ensures spelled { (word : List ℕ) (x : Address) → address_of word ≡ Some x → (word ≡ address_text x) × IsAddress x }
    ensures read { (x : Address) → IsAddress x → address_of (address_text x) ≡ Some x }
{}

/// The words of a call's line are that call, and words are read as a call where they spell it, a rate of 8000 Hz being
/// named or not: once for all commands.
pub fn call_lines()
    ensures read { (c : CallOf) → IsCall c → call_of 0 (words_of (call_line c)) ≡ Ok c }
    ensures spelling { (words : List (List ℕ)) (c : CallOf) → SpellCall words c → IsCall c → call_of 0 words ≡ Ok c }
    ensures spelled { (words : List (List ℕ)) (c : CallOf) → call_of 0 words ≡ Ok c → SpellCall words c × IsCall c }
{}

/// A call is refused for the first reason that holds. Reasons are checked in the order of the refusals' numbers, but
/// RateMismatch (21) behind Full (12). A group's size is checked first (18, 19), then the log (17), then each command
/// (20). Of a revert it is checked that the call was made and isn't too far back (23, 24), then the log (17), that the
/// call is in force (23), each command that is carried out again (25), and then who would come or go (26). A command
/// in a group, or one that stands in the way, is refused in the words of the command alone.
pub fn refusal_words()
    ensures first { (h : CallHistory) (d : Rows) (done undone : ℕ) (call : CallOf)
        → refusal_at h d done undone call ≡ first_case (call_cases h d done undone call) }
    ensures rising { (h : CallHistory) (d : Rows) (done undone : ℕ) (call : CallOf) → IsSingle call
        → Rises (map turn_of (case_numbers (call_cases h d done undone call))) }
    ensures group { (h : CallHistory) (d : Rows) (done undone : ℕ) (commands : List Command)
        → case_numbers (call_cases h d done undone (Group commands))
        ≡ 18 ∷ 19 ∷ 17 ∷ map (λ c. 20) (part_cases 0 d commands) }
    ensures revert { (h : CallHistory) (d : Rows) (done undone number : ℕ)
        → case_numbers (call_cases h d done undone (Revert number))
        ≡ 23 ∷ 24 ∷ 17 ∷ 23
        ∷ (map (λ c. 25) (conflict_cases (desk_in_force h.start (kept number h.done)) (again number h.done))
        ++ map (λ c. 26) (elsewhere_cases h.start number h.done (moved_keys d (as_if h.start h.done number)))) }
    ensures part { (why : Reason) → reason_words why ≡ told_words (told_of (refusal_for why)) }
{}
