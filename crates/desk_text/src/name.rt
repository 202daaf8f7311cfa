//! The names of commands, and how calls begin.

ghost use Rattle.std.specs.Prelude.{◌≡◌};
ghost use Rattle.desk_text.specs.Calls.{name_of, setting_of, head_of};

/// The name of a command.
#[derive(Clone, Copy)]
pub enum Name {
    AddRoom,
    RemoveRoom,
    AddMember,
    RemoveMember,
    MoveMember,
    AddSource,
    RemoveSource,
    AddSlot,
    RemoveSlot,
    Subscribe,
    Unsubscribe,
    SetGain,
    Mute,
    Unmute,
    Pin,
    Unpin,
    GiveFloor,
    TakeFloor,
}

/// The name that a word is.
pub fn parse_name(word: &[u8]) -> Option<Name>
    ensures { result ≡ name_of word.now }
{
    if word == b"add-room".as_slice() {
        Some(Name::AddRoom)
    } else if word == b"remove-room".as_slice() {
        Some(Name::RemoveRoom)
    } else if word == b"add-member".as_slice() {
        Some(Name::AddMember)
    } else if word == b"remove-member".as_slice() {
        Some(Name::RemoveMember)
    } else if word == b"move-member".as_slice() {
        Some(Name::MoveMember)
    } else if word == b"add-source".as_slice() {
        Some(Name::AddSource)
    } else if word == b"remove-source".as_slice() {
        Some(Name::RemoveSource)
    } else if word == b"add-slot".as_slice() {
        Some(Name::AddSlot)
    } else if word == b"remove-slot".as_slice() {
        Some(Name::RemoveSlot)
    } else {
        parse_setting(word)
    }
}

/// The name of a command that sets what is heard and seen, if a word is one.
fn parse_setting(word: &[u8]) -> Option<Name>
    ensures { result ≡ setting_of word.now }
{
    if word == b"subscribe".as_slice() {
        Some(Name::Subscribe)
    } else if word == b"unsubscribe".as_slice() {
        Some(Name::Unsubscribe)
    } else if word == b"set-gain".as_slice() {
        Some(Name::SetGain)
    } else if word == b"mute".as_slice() {
        Some(Name::Mute)
    } else if word == b"unmute".as_slice() {
        Some(Name::Unmute)
    } else if word == b"pin".as_slice() {
        Some(Name::Pin)
    } else if word == b"unpin".as_slice() {
        Some(Name::Unpin)
    } else if word == b"give-floor".as_slice() {
        Some(Name::GiveFloor)
    } else if word == b"take-floor".as_slice() {
        Some(Name::TakeFloor)
    } else {
        None
    }
}

/// The first word of a call that is no single command.
#[derive(Clone, Copy)]
pub enum Head {
    Undo,
    Redo,
    Revert,
    Group,
}

/// The head that a word is.
pub fn parse_head(word: &[u8]) -> Option<Head>
    ensures { result ≡ head_of word.now }
{
    if word == b"undo".as_slice() {
        Some(Head::Undo)
    } else if word == b"redo".as_slice() {
        Some(Head::Redo)
    } else if word == b"revert".as_slice() {
        Some(Head::Revert)
    } else if word == b"group".as_slice() {
        Some(Head::Group)
    } else {
        None
    }
}
