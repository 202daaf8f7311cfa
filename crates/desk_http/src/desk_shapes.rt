//! The JSON of the desk. A row here is a key.

use crate::reading::WordPlace;
use crate::rows::{HistoryPart, RowField, RowKind, RowShape};

const ROOM: [RowField; 2] = [
    RowField {
        name: "room",
        place: WordPlace::Word(1),
    },
    RowField {
        name: "rate",
        place: WordPlace::Word(2),
    },
];

const MEMBER: [RowField; 8] = [
    RowField {
        name: "place",
        place: WordPlace::Word(1),
    },
    RowField {
        name: "member",
        place: WordPlace::Word(2),
    },
    RowField {
        name: "room",
        place: WordPlace::Word(3),
    },
    RowField {
        name: "address",
        place: WordPlace::Word(4),
    },
    RowField {
        name: "codec",
        place: WordPlace::Word(5),
    },
    RowField {
        name: "out_audio",
        place: WordPlace::Word(6),
    },
    RowField {
        name: "first_seq",
        place: WordPlace::Word(7),
    },
    RowField {
        name: "first_ts",
        place: WordPlace::Word(8),
    },
];

const SOURCE: [RowField; 3] = [
    RowField {
        name: "ssrc",
        place: WordPlace::Word(1),
    },
    RowField {
        name: "member",
        place: WordPlace::Word(2),
    },
    RowField {
        name: "kind",
        place: WordPlace::Word(3),
    },
];

const SLOT: [RowField; 5] = [
    RowField {
        name: "out_ssrc",
        place: WordPlace::Word(1),
    },
    RowField {
        name: "member",
        place: WordPlace::Word(2),
    },
    RowField {
        name: "index",
        place: WordPlace::Word(3),
    },
    RowField {
        name: "first_seq",
        place: WordPlace::Word(4),
    },
    RowField {
        name: "first_ts",
        place: WordPlace::Word(5),
    },
];

const SUB: [RowField; 2] = [
    RowField {
        name: "out_ssrc",
        place: WordPlace::Word(1),
    },
    RowField {
        name: "source",
        place: WordPlace::Word(2),
    },
];

const MUTE: [RowField; 1] = [RowField {
    name: "source",
    place: WordPlace::Word(1),
}];

const GAIN: [RowField; 3] = [
    RowField {
        name: "member",
        place: WordPlace::Word(1),
    },
    RowField {
        name: "source",
        place: WordPlace::Word(2),
    },
    RowField {
        name: "q8",
        place: WordPlace::Word(3),
    },
];

const PIN: [RowField; 2] = [
    RowField {
        name: "room",
        place: WordPlace::Word(1),
    },
    RowField {
        name: "source",
        place: WordPlace::Word(2),
    },
];

const FLOOR: [RowField; 2] = [
    RowField {
        name: "room",
        place: WordPlace::Word(1),
    },
    RowField {
        name: "member",
        place: WordPlace::Word(2),
    },
];

pub(crate) const VERSION: [RowField; 1] = [RowField {
    name: "version",
    place: WordPlace::Word(1),
}];

const DESK: &[RowShape] = &[
    RowShape {
        key: "rooms",
        part: HistoryPart::All,
        kind: RowKind::Named("room"),
        is_list: true,
        fields: &ROOM,
    },
    RowShape {
        key: "members",
        part: HistoryPart::All,
        kind: RowKind::Named("member"),
        is_list: true,
        fields: &MEMBER,
    },
    RowShape {
        key: "sources",
        part: HistoryPart::All,
        kind: RowKind::Named("source"),
        is_list: true,
        fields: &SOURCE,
    },
    RowShape {
        key: "slots",
        part: HistoryPart::All,
        kind: RowKind::Named("slot"),
        is_list: true,
        fields: &SLOT,
    },
    RowShape {
        key: "subs",
        part: HistoryPart::All,
        kind: RowKind::Named("sub"),
        is_list: true,
        fields: &SUB,
    },
    RowShape {
        key: "mutes",
        part: HistoryPart::All,
        kind: RowKind::Named("mute"),
        is_list: true,
        fields: &MUTE,
    },
    RowShape {
        key: "gains",
        part: HistoryPart::All,
        kind: RowKind::Named("gain"),
        is_list: true,
        fields: &GAIN,
    },
    RowShape {
        key: "pins",
        part: HistoryPart::All,
        kind: RowKind::Named("pin"),
        is_list: true,
        fields: &PIN,
    },
    RowShape {
        key: "floors",
        part: HistoryPart::All,
        kind: RowKind::Named("floor"),
        is_list: true,
        fields: &FLOOR,
    },
    RowShape {
        key: "end",
        part: HistoryPart::All,
        kind: RowKind::Named("end"),
        is_list: false,
        fields: &VERSION,
    },
    RowShape {
        key: "names",
        part: HistoryPart::All,
        kind: RowKind::Named("names"),
        is_list: false,
        fields: &VERSION,
    },
];

/// What `/desk` has.
pub(crate) fn desk_shapes() -> &'static [RowShape] {
    DESK
}
