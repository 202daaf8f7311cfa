//! The words of lines, and what each is.

ghost use Rattle.std.specs.Prelude.{◌≡◌};
ghost use Rattle.operator_lines.specs.Forms.{form_word_text};

/// A word of a line behind its first.
#[derive(Clone, Copy, PartialEq, Eq)]
pub(crate) enum FormWord {
    Room,
    Rate,
    Member,
    Address,
    Codec,
    OutAudio,
    FirstSeq,
    FirstTs,
    Ssrc,
    Kind,
    OutSsrc,
    Index,
    Source,
    Gain,
    Last,
    Call,
    Commands,
    Most,
    Names,
    Name,
    Lease,
    Word,
}

impl FormWord {
    /// What it is.
    pub fn text(self) -> &'static [u8]
        ensures { result.now ≡ form_word_text self }
    {
        match self {
            FormWord::Room => b"ROOM: the number of a room, 0 to 4294967295",
            FormWord::Rate => b"RATE: 8000 or 44100, in Hz; 8000 where it is left out",
            FormWord::Member => b"MEMBER: the number of a member, 0 to 4294967295",
            FormWord::Address =>
                b"ADDRESS: where the member sends from and is sent to, such as 10.0.0.1:5000; its port is 1 to 65535",
            FormWord::Codec => b"CODEC: pcmu or l16",
            FormWord::OutAudio => b"OUT_AUDIO: the SSRC of the member's mix, 0 to 4294967295",
            FormWord::FirstSeq => b"FIRST_SEQ: the sequence number of the first packet, 0 to 65535",
            FormWord::FirstTs => b"FIRST_TS: the timestamp of the first packet, 0 to 4294967295",
            FormWord::Ssrc => b"SSRC: the SSRC of a source, 0 to 4294967295",
            FormWord::Kind => b"KIND: audio or video",
            FormWord::OutSsrc => b"OUT_SSRC: the SSRC of an outgoing video stream, 0 to 4294967295",
            FormWord::Index => b"INDEX: 0 to 15, another one for each slot of a member",
            FormWord::Source => b"SOURCE: the SSRC of a source, 0 to 4294967295",
            FormWord::Gain => b"Q8: 256 times the gain, 0 to 1024",
            FormWord::Last => b"LAST: the number of the last accepted call",
            FormWord::Call => b"N: the number of a call that is in force, as `history` tells it",
            FormWord::Commands => b"COMMAND: a command; 1 to 64 of them, with a word / between two",
            FormWord::Most =>
                b"N: how many calls at most, 0 to 18446744073709551615; all where it is left out",
            FormWord::Names => b"names: each call is told with its moment and its name",
            FormWord::Name => b"NAME: 1 to 64 octets without a space; - is no name",
            FormWord::Lease =>
                b"MS: for how many ms all may call, 0 to 4294967295, or off; without it what is left is told",
            FormWord::Word => b"WORD: the first word of a line",
        }
    }
}
