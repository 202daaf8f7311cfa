//! What a bridge counts as JSON. A row here is a key.

use crate::bridge_shapes::{LANE, LIMITED, SEATS, SOCKET};
use crate::reading::WordPlace;
use crate::rows::{HistoryPart, RowField, RowKind, RowShape};

const DATAGRAMS: [RowField; 3] = [
    RowField {
        name: "datagrams",
        place: WordPlace::Word(1),
    },
    RowField {
        name: "octets",
        place: WordPlace::Behind("octets", 1),
    },
    RowField {
        name: "outcome",
        place: WordPlace::Rest(4),
    },
];

const SENDER: [RowField; 22] = [
    RowField {
        name: "address",
        place: WordPlace::Word(1),
    },
    RowField {
        name: "ssrc",
        place: WordPlace::Word(2),
    },
    RowField {
        name: "packets",
        place: WordPlace::Behind("packets", 1),
    },
    RowField {
        name: "octets",
        place: WordPlace::Behind("octets", 1),
    },
    RowField {
        name: "late",
        place: WordPlace::Behind("late", 1),
    },
    RowField {
        name: "duplicate",
        place: WordPlace::Behind("duplicate", 1),
    },
    RowField {
        name: "dropped",
        place: WordPlace::Behind("dropped", 1),
    },
    RowField {
        name: "expected",
        place: WordPlace::Behind("expected", 1),
    },
    RowField {
        name: "lost",
        place: WordPlace::Behind("lost", 1),
    },
    RowField {
        name: "ago_ms",
        place: WordPlace::Behind("ago", 1),
    },
    RowField {
        name: "jitter_ms",
        place: WordPlace::Behind("jitter", 1),
    },
    RowField {
        name: "frames",
        place: WordPlace::Behind("frames", 1),
    },
    RowField {
        name: "given_up",
        place: WordPlace::Behind("given-up", 1),
    },
    RowField {
        name: "waiting_ms",
        place: WordPlace::Behind("waiting", 1),
    },
    RowField {
        name: "samples",
        place: WordPlace::Behind("samples", 1),
    },
    RowField {
        name: "energy",
        place: WordPlace::Behind("energy", 1),
    },
    RowField {
        name: "bad_payload",
        place: WordPlace::Behind("bad-payload", 1),
    },
    RowField {
        name: "bad_type",
        place: WordPlace::Behind("bad-type", 1),
    },
    RowField {
        name: "spent",
        place: WordPlace::Behind("spent", 1),
    },
    RowField {
        name: "probation",
        place: WordPlace::Behind("probation", 1),
    },
    RowField {
        name: "jump",
        place: WordPlace::Behind("jump", 1),
    },
    RowField {
        name: "silent_ms",
        place: WordPlace::Behind("silent", 1),
    },
];

const STRANGER: [RowField; 4] = [
    RowField {
        name: "address",
        place: WordPlace::Word(1),
    },
    RowField {
        name: "ssrc",
        place: WordPlace::Word(2),
    },
    RowField {
        name: "payload_type",
        place: WordPlace::Behind("type", 1),
    },
    RowField {
        name: "packets",
        place: WordPlace::Behind("packets", 1),
    },
];

const LEFT_OUT: [RowField; 4] = [
    RowField {
        name: "sources",
        place: WordPlace::Behind("sources", 1),
    },
    RowField {
        name: "strangers",
        place: WordPlace::Behind("strangers", 1),
    },
    RowField {
        name: "streams",
        place: WordPlace::Behind("streams", 1),
    },
    RowField {
        name: "reports",
        place: WordPlace::Behind("reports", 1),
    },
];

const STREAM: [RowField; 10] = [
    RowField {
        name: "out_ssrc",
        place: WordPlace::Word(1),
    },
    RowField {
        name: "fraction",
        place: WordPlace::Behind("fraction", 1),
    },
    RowField {
        name: "lost",
        place: WordPlace::Behind("lost", 1),
    },
    RowField {
        name: "highest_ssrc",
        place: WordPlace::Behind("highest", 1),
    },
    RowField {
        name: "highest",
        place: WordPlace::Behind("highest", 2),
    },
    RowField {
        name: "packets",
        place: WordPlace::Behind("packets", 1),
    },
    RowField {
        name: "octets",
        place: WordPlace::Behind("octets", 1),
    },
    RowField {
        name: "resent",
        place: WordPlace::Behind("resent", 1),
    },
    RowField {
        name: "jitter_ms",
        place: WordPlace::Behind("jitter", 1),
    },
    RowField {
        name: "round_trip_ms",
        place: WordPlace::Behind("round-trip", 1),
    },
];

const STATS: &[RowShape] = &[
    RowShape {
        key: "datagrams",
        part: HistoryPart::All,
        kind: RowKind::Named("datagrams"),
        is_list: true,
        fields: &DATAGRAMS,
    },
    RowShape {
        key: "sources",
        part: HistoryPart::All,
        kind: RowKind::Named("source"),
        is_list: true,
        fields: &SENDER,
    },
    RowShape {
        key: "strangers",
        part: HistoryPart::All,
        kind: RowKind::Named("stranger"),
        is_list: true,
        fields: &STRANGER,
    },
    RowShape {
        key: "left_out",
        part: HistoryPart::All,
        kind: RowKind::Named("left-out"),
        is_list: false,
        fields: &LEFT_OUT,
    },
    RowShape {
        key: "streams",
        part: HistoryPart::All,
        kind: RowKind::Named("stream"),
        is_list: true,
        fields: &STREAM,
    },
    RowShape {
        key: "lanes",
        part: HistoryPart::All,
        kind: RowKind::Named("lane"),
        is_list: true,
        fields: &LANE,
    },
    RowShape {
        key: "limited",
        part: HistoryPart::All,
        kind: RowKind::Named("limited"),
        is_list: false,
        fields: &LIMITED,
    },
    RowShape {
        key: "socket",
        part: HistoryPart::All,
        kind: RowKind::Named("socket"),
        is_list: false,
        fields: &SOCKET,
    },
    RowShape {
        key: "seats",
        part: HistoryPart::All,
        kind: RowKind::Named("seats"),
        is_list: false,
        fields: &SEATS,
    },
];

/// What `/stats` has.
pub(crate) fn stats_shapes() -> &'static [RowShape] {
    STATS
}
