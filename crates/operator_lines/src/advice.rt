//! What a refusal and a fault mean, and what to do.

ghost use Rattle.std.specs.Prelude.{◌≡◌};
ghost use Rattle.operator_lines.specs.Advice.{refusal_advice, fault_advice};

use desk_edit::Refusal;
use desk_text::Fault;

// The longer ones of the words below.
const EXISTS: &[u8] =
    b"it is there already: take another number, address, SSRC or index, or remove what is there";

const WRONG_KIND: &[u8] =
    b"the source is of the other kind: `set-gain` takes audio, `subscribe` and `pin` take video";

const BAD_VALUE: &[u8] =
    b"a value is out of range: port 1 to 65535, index 0 to 15, gain 0 to 1024, rate 8000 or 44100";

const NEWER_COMMAND: &[u8] =
    b"another change came first: look at it, then name its number, or take your own call back by `revert`";

const PART_REFUSED: &[u8] = b"one command of the group is refused, so none of it happened";

const RATE_MISMATCH: &[u8] =
    b"the room has another rate: one of 44100 Hz takes l16 alone, and members move between rooms of one rate";

const NOT_IN_FORCE: &[u8] =
    b"no such call is in force: it was undone or reverted, is an undo or a redo, or was never made; see `history`";

const TOO_FAR: &[u8] =
    b"over 256 commands lie behind it: give the command that takes it back, such as `unmute`";

const CONFLICT: &[u8] =
    b"a later call rests on it: revert that one first, or give the command that takes yours back";

const ELSEWHERE: &[u8] =
    b"somebody else would come or go with it: give the command that takes it back";

/// What a refusal means, and what to do.
pub(crate) fn refusal_advice(refusal: Refusal) -> &'static [u8]
    ensures { result.now ≡ refusal_advice refusal }
{
    match refusal {
        Refusal::Exists => EXISTS,
        Refusal::NoRoom => b"there is no such room: it may have been removed",
        Refusal::NoMember => b"there is no such member: it may have been removed",
        Refusal::NoSource => b"there is no such source: it may have gone with its member",
        Refusal::NoSlot => b"there is no such slot: it may have gone with its member",
        Refusal::WrongKind => WRONG_KIND,
        Refusal::OtherRoom => b"they are in two rooms: move the member, or choose within the room",
        Refusal::SsrcTaken => b"the SSRC is used already: take another one",
        Refusal::BadValue => BAD_VALUE,
        Refusal::Already => b"nothing to do: the desk is so already",
        Refusal::NotThere => b"nothing to do: there is none to take away",
        Refusal::Full { .. } => b"the table is full: remove something, or use another room",
        Refusal::OutOfMemory => b"the bridge is out of memory: try again",
        Refusal::NewerCommand { .. } => NEWER_COMMAND,
        Refusal::NothingToUndo => b"there is nothing to undo",
        Refusal::NothingToRedo => b"there is nothing to redo",
        Refusal::LogFull => b"the log is full: start the bridge anew",
        Refusal::EmptyGroup => b"the group is empty",
        Refusal::GroupTooLong { .. } => b"the group has over 64 commands: make it smaller",
        Refusal::PartRefused { .. } => PART_REFUSED,
        Refusal::RateMismatch => RATE_MISMATCH,
        Refusal::NotInForce => NOT_IN_FORCE,
        Refusal::TooFar { .. } => TOO_FAR,
        Refusal::Conflict { .. } => CONFLICT,
        Refusal::Elsewhere { .. } => ELSEWHERE,
    }
}

/// What a fault of a line means, and what to do.
pub(crate) fn fault_advice(fault: Fault) -> &'static [u8]
    ensures { result.now ≡ fault_advice fault }
{
    match fault {
        Fault::LineTooLong => b"the line is too long: 4096 octets are the most",
        Fault::BadByte => b"an octet is none of a space to ~, and ends the connection",
        Fault::UnknownWord => b"the word is none of those that may stand there",
        Fault::MissingWord => b"a word is missing",
        Fault::ExtraWord => b"a word is too many, and each space makes one, also at the end",
        Fault::BadNumber => b"that is no number, or out of range",
        Fault::BadAddress => b"that is no address, such as 127.0.0.1:6000",
        Fault::BadHex => b"those are no octets in hexadecimal",
        Fault::BadFrame => b"those packets make no frame",
    }
}
