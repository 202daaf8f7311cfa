//! What turns one text of the desk into the next one.

ghost use Rattle.std.specs.Prelude.{◌≡◌, ◌≤◌, ◌+◌, length, true};
ghost use Rattle.desk_http.specs.Events.{has_ends};

/// What turns a text into another one: some octets stay at the front, some go, some come in their place, and the rest
/// stays.
#[derive(Clone, Copy)]
pub struct TextEdit {
    /// So many octets at the front stay.
    pub start: usize,
    /// So many octets after those go.
    pub removed: usize,
    /// So many octets of the other text come in their place.
    pub inserted: usize,
}

/// How many octets two texts have in common at the front.
fn common_front(one: &[u8], other: &[u8]) -> usize
    ensures one { result ≤ length one.now }
    ensures other { result ≤ length other.now }
{
    let mut count = 0;
    while count < one.len() && count < other.len() && one[count] == other[count] {
        count += 1;
    }
    count
}

/// How many octets two texts have in common at the end.
fn common_end(one: &[u8], other: &[u8]) -> usize
    ensures one { result ≤ length one.now }
    ensures other { result ≤ length other.now }
{
    let mut count = 0;
    while count < one.len()
        && count < other.len()
        && one[one.len() - 1 - count] == other[other.len() - 1 - count]
    {
        count += 1;
    }
    count
}

/// Replaces all of a text.
fn whole_edit(before: &[u8], after: &[u8]) -> TextEdit
    ensures { has_ends result before.now after.now ≡ true }
{
    TextEdit {
        start: 0,
        removed: before.len(),
        inserted: after.len(),
    }
}

/// Whether two texts are the same at both ends of an edit.
fn has_ends(edit: TextEdit, before: &[u8], after: &[u8]) -> bool
    requires before { edit.start + edit.removed ≤ length before.now }
    requires after { edit.start + edit.inserted ≤ length after.now }
    ensures { result ≡ has_ends edit before.now after.now }
{
    &before[..edit.start] == &after[..edit.start]
        && &before[edit.start + edit.removed..] == &after[edit.start + edit.inserted..]
}

/// What turns a text into another one ([`edits_make_texts`](crate::edits_make_texts)). Of two like texts of the desk it
/// is short.
// Both ends are compared once more as wholes: so the edit is right whatever the counts are.
pub fn edit_between(before: &[u8], after: &[u8]) -> TextEdit
    ensures { has_ends result before.now after.now ≡ true }
{
    let start = common_front(before, after);
    let end = common_end(&before[start..], &after[start..]);
    let edit = TextEdit {
        start,
        removed: before.len() - start - end,
        inserted: after.len() - start - end,
    };
    if has_ends(edit, before, after) {
        edit
    } else {
        whole_edit(before, after)
    }
}
