//! Lanes, the rate limiter and operators as JSON. A row here is a key.

use crate::reading::WordPlace;
use crate::rows::RowField;

pub(crate) const LANE: [RowField; 13] = [
    RowField {
        name: "lane",
        place: WordPlace::Word(1),
    },
    RowField {
        name: "items",
        place: WordPlace::Behind("items", 1),
    },
    RowField {
        name: "dropped",
        place: WordPlace::Behind("dropped", 1),
    },
    RowField {
        name: "waiting",
        place: WordPlace::Behind("waiting", 1),
    },
    RowField {
        name: "packets",
        place: WordPlace::Behind("packets", 1),
    },
    RowField {
        name: "octets",
        place: WordPlace::Behind("octets", 1),
    },
    RowField {
        name: "waited",
        place: WordPlace::Behind("waited", 1),
    },
    RowField {
        name: "not_ready",
        place: WordPlace::Behind("not-ready", 1),
    },
    RowField {
        name: "denied",
        place: WordPlace::Behind("denied", 1),
    },
    RowField {
        name: "refused",
        place: WordPlace::Behind("refused", 1),
    },
    RowField {
        name: "unreachable",
        place: WordPlace::Behind("unreachable", 1),
    },
    RowField {
        name: "too_long",
        place: WordPlace::Behind("too-long", 1),
    },
    RowField {
        name: "other",
        place: WordPlace::Behind("other", 1),
    },
];

pub(crate) const LIMITED: [RowField; 3] = [
    RowField {
        name: "nacks",
        place: WordPlace::Behind("nacks", 1),
    },
    RowField {
        name: "blocks",
        place: WordPlace::Behind("blocks", 1),
    },
    RowField {
        name: "plis",
        place: WordPlace::Behind("plis", 1),
    },
];

pub(crate) const SOCKET: [RowField; 3] = [
    RowField {
        name: "receive_buffer",
        place: WordPlace::Behind("receive-buffer", 1),
    },
    RowField {
        name: "send_buffer",
        place: WordPlace::Behind("send-buffer", 1),
    },
    RowField {
        name: "drops",
        place: WordPlace::Behind("drops", 1),
    },
];

pub(crate) const SEATS: [RowField; 2] = [
    RowField {
        name: "used",
        place: WordPlace::Word(1),
    },
    RowField {
        name: "of",
        place: WordPlace::Behind("of", 1),
    },
];
