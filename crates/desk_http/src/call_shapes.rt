//! The JSON of the history and of the log.

use crate::desk_shapes::VERSION;
use crate::{HistoryPart, RowField, RowKind, RowShape, WordPlace};

const CALL: [RowField; 3] = [
    RowField {
        name: "number",
        place: WordPlace::Word(0),
    },
    RowField {
        name: "operator",
        place: WordPlace::Word(1),
    },
    RowField {
        name: "call",
        place: WordPlace::Rest(2),
    },
];

const LOGGED: [RowField; 5] = [
    RowField {
        name: "number",
        place: WordPlace::Word(1),
    },
    RowField {
        name: "moment",
        place: WordPlace::Word(2),
    },
    RowField {
        name: "operator",
        place: WordPlace::Word(3),
    },
    RowField {
        name: "name",
        place: WordPlace::Word(4),
    },
    RowField {
        name: "call",
        place: WordPlace::Rest(5),
    },
];

const HISTORY: &[RowShape] = &[
    RowShape {
        key: "done",
        part: HistoryPart::Done,
        kind: RowKind::Numbered,
        is_list: true,
        fields: &CALL,
    },
    RowShape {
        key: "undone",
        part: HistoryPart::Undone,
        kind: RowKind::Numbered,
        is_list: true,
        fields: &CALL,
    },
    RowShape {
        key: "end",
        part: HistoryPart::All,
        kind: RowKind::Named("end"),
        is_list: false,
        fields: &VERSION,
    },
];

const CALLS: &[RowShape] = &[
    RowShape {
        key: "calls",
        part: HistoryPart::All,
        kind: RowKind::Named("call"),
        is_list: true,
        fields: &LOGGED,
    },
    RowShape {
        key: "end",
        part: HistoryPart::All,
        kind: RowKind::Named("end"),
        is_list: false,
        fields: &VERSION,
    },
];

/// What `/history` has.
pub(crate) fn history_shapes() -> &'static [RowShape] {
    HISTORY
}

/// What `/past` has.
pub(crate) fn calls_shapes() -> &'static [RowShape] {
    CALLS
}
