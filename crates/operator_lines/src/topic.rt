//! What the first word of a line says that it is.

ghost use Rattle.std.specs.Prelude.{◌≡◌};
ghost use Rattle.operator_lines.specs.Topics.{topic_of};

use crate::own::{Own, parse_own};
use desk_text::{Head, Name, parse_head, parse_name};

/// What a line is, by its first word.
#[derive(Clone, Copy)]
pub(crate) enum Topic {
    /// A command.
    Command(Name),
    /// An undo, a redo or a group.
    Head(Head),
    /// No call.
    Own(Own),
}

/// What a line is that begins with this word.
pub(crate) fn parse_topic(word: &[u8]) -> Option<Topic>
    ensures { result ≡ topic_of word.now }
{
    if let Some(own) = parse_own(word) {
        return Some(Topic::Own(own));
    }
    if let Some(head) = parse_head(word) {
        return Some(Topic::Head(head));
    }
    match parse_name(word) {
        Some(name) => Some(Topic::Command(name)),
        None => None,
    }
}
