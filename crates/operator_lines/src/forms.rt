//! The forms of lines: what `help` tells of each.

ghost use Rattle.std.specs.Prelude.{◌≡◌};
ghost use Rattle.operator_lines.specs.Forms.{form_of, places_of, example_of, all_topics};
ghost use Rattle.operator_lines.specs.declared.topic.Topic.TheVariants as topics;

use crate::form_word::FormWord;
use crate::own::Own;
use crate::topic::Topic;
use desk_text::{Head, Name};

/// All lines.
const ALL: &[Topic] = &[
    Topic::Command(Name::AddRoom),
    Topic::Command(Name::RemoveRoom),
    Topic::Command(Name::AddMember),
    Topic::Command(Name::RemoveMember),
    Topic::Command(Name::MoveMember),
    Topic::Command(Name::AddSource),
    Topic::Command(Name::RemoveSource),
    Topic::Command(Name::AddSlot),
    Topic::Command(Name::RemoveSlot),
    Topic::Command(Name::Subscribe),
    Topic::Command(Name::Unsubscribe),
    Topic::Command(Name::SetGain),
    Topic::Command(Name::Mute),
    Topic::Command(Name::Unmute),
    Topic::Command(Name::Pin),
    Topic::Command(Name::Unpin),
    Topic::Command(Name::GiveFloor),
    Topic::Command(Name::TakeFloor),
    Topic::Head(Head::Undo),
    Topic::Head(Head::Redo),
    Topic::Head(Head::Revert),
    Topic::Head(Head::Group),
    Topic::Own(Own::Show),
    Topic::Own(Own::Groups),
    Topic::Own(Own::History),
    Topic::Own(Own::Calls),
    Topic::Own(Own::Stats),
    Topic::Own(Own::Levels),
    Topic::Own(Own::Watch),
    Topic::Own(Own::As),
    Topic::Own(Own::Lease),
    Topic::Own(Own::Why),
    Topic::Own(Own::Help),
    Topic::Own(Own::Quit),
    Topic::Own(Own::Stop),
];

/// The words behind `add-member`.
const ADD_MEMBER: &[FormWord] = &[
    FormWord::Member,
    FormWord::Room,
    FormWord::Address,
    FormWord::Codec,
    FormWord::OutAudio,
    FormWord::FirstSeq,
    FormWord::FirstTs,
];

/// The words behind `add-slot`.
const ADD_SLOT: &[FormWord] = &[
    FormWord::OutSsrc,
    FormWord::Member,
    FormWord::Index,
    FormWord::FirstSeq,
    FormWord::FirstTs,
];

/// The form of a command.
fn command_form(name: Name) -> &'static [u8]
    ensures { result.now ≡ form_of (topics.Command name) }
{
    match name {
        Name::AddRoom => b"add-room ROOM [RATE]",
        Name::RemoveRoom => b"remove-room ROOM",
        Name::AddMember => b"add-member MEMBER ROOM ADDRESS CODEC OUT_AUDIO FIRST_SEQ FIRST_TS",
        Name::RemoveMember => b"remove-member MEMBER",
        Name::MoveMember => b"move-member MEMBER ROOM",
        Name::AddSource => b"add-source SSRC MEMBER KIND",
        Name::RemoveSource => b"remove-source SSRC",
        Name::AddSlot => b"add-slot OUT_SSRC MEMBER INDEX FIRST_SEQ FIRST_TS",
        Name::RemoveSlot => b"remove-slot OUT_SSRC",
        Name::Subscribe => b"subscribe OUT_SSRC SOURCE",
        Name::Unsubscribe => b"unsubscribe OUT_SSRC",
        Name::SetGain => b"set-gain MEMBER SOURCE Q8",
        Name::Mute => b"mute SOURCE",
        Name::Unmute => b"unmute SOURCE",
        Name::Pin => b"pin ROOM SOURCE",
        Name::Unpin => b"unpin ROOM",
        Name::GiveFloor => b"give-floor ROOM MEMBER",
        Name::TakeFloor => b"take-floor ROOM",
    }
}

/// The form of an undo, a redo, a revert or a group.
fn head_form(head: Head) -> &'static [u8]
    ensures { result.now ≡ form_of (topics.Head head) }
{
    match head {
        Head::Undo => b"undo LAST",
        Head::Redo => b"redo LAST",
        Head::Revert => b"revert N",
        Head::Group => b"group COMMAND / COMMAND ..",
    }
}

/// The form of a line that is no call.
fn own_form(own: Own) -> &'static [u8]
    ensures { result.now ≡ form_of (topics.Own own) }
{
    match own {
        Own::Show => b"show",
        Own::Groups => b"groups",
        Own::History => b"history [N]",
        Own::Calls => b"calls [N]",
        Own::Stats => b"stats",
        Own::Levels => b"levels",
        Own::Watch => b"watch [names]",
        Own::As => b"as NAME",
        Own::Lease => b"lease [MS]",
        Own::Why => b"why",
        Own::Help => b"help [WORD]",
        Own::Quit => b"quit",
        Own::Stop => b"stop",
    }
}

/// The words behind the first one of a command.
fn command_places(name: Name) -> &'static [FormWord]
    ensures { result.now ≡ places_of (topics.Command name) }
{
    match name {
        Name::AddRoom => &[FormWord::Room, FormWord::Rate],
        Name::RemoveRoom => &[FormWord::Room],
        Name::AddMember => ADD_MEMBER,
        Name::RemoveMember => &[FormWord::Member],
        Name::MoveMember => &[FormWord::Member, FormWord::Room],
        Name::AddSource => &[FormWord::Ssrc, FormWord::Member, FormWord::Kind],
        Name::RemoveSource => &[FormWord::Ssrc],
        Name::AddSlot => ADD_SLOT,
        Name::RemoveSlot => &[FormWord::OutSsrc],
        Name::Subscribe => &[FormWord::OutSsrc, FormWord::Source],
        Name::Unsubscribe => &[FormWord::OutSsrc],
        Name::SetGain => &[FormWord::Member, FormWord::Source, FormWord::Gain],
        Name::Mute => &[FormWord::Source],
        Name::Unmute => &[FormWord::Source],
        Name::Pin => &[FormWord::Room, FormWord::Source],
        Name::Unpin => &[FormWord::Room],
        Name::GiveFloor => &[FormWord::Room, FormWord::Member],
        Name::TakeFloor => &[FormWord::Room],
    }
}

/// The words behind the first one of an undo, a redo, a revert or a group.
fn head_places(head: Head) -> &'static [FormWord]
    ensures { result.now ≡ places_of (topics.Head head) }
{
    match head {
        Head::Undo => &[FormWord::Last],
        Head::Redo => &[FormWord::Last],
        Head::Revert => &[FormWord::Call],
        Head::Group => &[FormWord::Commands],
    }
}

/// The words behind the first one of a line that is no call.
fn own_places(own: Own) -> &'static [FormWord]
    ensures { result.now ≡ places_of (topics.Own own) }
{
    match own {
        Own::Show => &[],
        Own::Groups => &[],
        Own::History => &[FormWord::Most],
        Own::Calls => &[FormWord::Most],
        Own::Stats => &[],
        Own::Levels => &[],
        Own::Watch => &[FormWord::Names],
        Own::As => &[FormWord::Name],
        Own::Lease => &[FormWord::Lease],
        Own::Why => &[],
        Own::Help => &[FormWord::Word],
        Own::Quit => &[],
        Own::Stop => &[],
    }
}

/// An example of a command.
fn command_example(name: Name) -> &'static [u8]
    ensures { result.now ≡ example_of (topics.Command name) }
{
    match name {
        Name::AddRoom => b"add-room 1",
        Name::RemoveRoom => b"remove-room 1",
        Name::AddMember => b"add-member 10 1 10.0.0.1:5000 pcmu 9001 0 0",
        Name::RemoveMember => b"remove-member 10",
        Name::MoveMember => b"move-member 10 2",
        Name::AddSource => b"add-source 201 10 audio",
        Name::RemoveSource => b"remove-source 201",
        Name::AddSlot => b"add-slot 501 10 0 0 0",
        Name::RemoveSlot => b"remove-slot 501",
        Name::Subscribe => b"subscribe 501 101",
        Name::Unsubscribe => b"unsubscribe 501",
        Name::SetGain => b"set-gain 10 201 128",
        Name::Mute => b"mute 201",
        Name::Unmute => b"unmute 201",
        Name::Pin => b"pin 1 101",
        Name::Unpin => b"unpin 1",
        Name::GiveFloor => b"give-floor 1 10",
        Name::TakeFloor => b"take-floor 1",
    }
}

/// An example of an undo, a redo, a revert or a group.
fn head_example(head: Head) -> &'static [u8]
    ensures { result.now ≡ example_of (topics.Head head) }
{
    match head {
        Head::Undo => b"undo 7",
        Head::Redo => b"redo 8",
        Head::Revert => b"revert 5",
        Head::Group => b"group mute 201 / mute 202",
    }
}

/// An example of a line that is no call.
fn own_example(own: Own) -> &'static [u8]
    ensures { result.now ≡ example_of (topics.Own own) }
{
    match own {
        Own::Show => b"show",
        Own::Groups => b"groups",
        Own::History => b"history 20",
        Own::Calls => b"calls 20",
        Own::Stats => b"stats",
        Own::Levels => b"levels",
        Own::Watch => b"watch names",
        Own::As => b"as bob",
        Own::Lease => b"lease 5000",
        Own::Why => b"why",
        Own::Help => b"help add-member",
        Own::Quit => b"quit",
        Own::Stop => b"stop",
    }
}

impl Topic {
    /// Its form.
    pub fn form(self) -> &'static [u8]
        ensures { result.now ≡ form_of self }
    {
        match self {
            Topic::Command(name) => command_form(name),
            Topic::Head(head) => head_form(head),
            Topic::Own(own) => own_form(own),
        }
    }

    /// The words behind its first.
    pub fn places(self) -> &'static [FormWord]
        ensures { result.now ≡ places_of self }
    {
        match self {
            Topic::Command(name) => command_places(name),
            Topic::Head(head) => head_places(head),
            Topic::Own(own) => own_places(own),
        }
    }

    /// An example.
    pub fn example(self) -> &'static [u8]
        ensures { result.now ≡ example_of self }
    {
        match self {
            Topic::Command(name) => command_example(name),
            Topic::Head(head) => head_example(head),
            Topic::Own(own) => own_example(own),
        }
    }

    /// All lines.
    pub fn all() -> &'static [Topic]
        ensures { result.now ≡ all_topics }
    {
        ALL
    }
}
