//! The metrics of lanes, of the rate limiter and of operators. A row here is a metric.

use crate::labelling::{Label, Labels};
use crate::metrics::{Family, Unit};
use crate::reading::WordPlace;

const LANE: Labels = Labels::One(LANE_NUMBER);

const LANE_NUMBER: Label = Label {
    name: "lane",
    place: WordPlace::Word(1),
};

const BRIDGE: &[Family] = &[
    Family {
        name: "confbridge_lane_items_total",
        help: "Items that a lane was given.",
        kind: "counter",
        line: "lane",
        labels: LANE,
        value: WordPlace::Behind("items", 1),
        unit: Unit::One,
    },
    Family {
        name: "confbridge_lane_dropped_items_total",
        help: "Items that were dropped for a lane.",
        kind: "counter",
        line: "lane",
        labels: LANE,
        value: WordPlace::Behind("dropped", 1),
        unit: Unit::One,
    },
    Family {
        name: "confbridge_lane_waiting_items",
        help: "Items that wait for a lane.",
        kind: "gauge",
        line: "lane",
        labels: LANE,
        value: WordPlace::Behind("waiting", 1),
        unit: Unit::One,
    },
    Family {
        name: "confbridge_lane_packets_total",
        help: "Datagrams of a lane that the system took.",
        kind: "counter",
        line: "lane",
        labels: LANE,
        value: WordPlace::Behind("packets", 1),
        unit: Unit::One,
    },
    Family {
        name: "confbridge_lane_bytes_total",
        help: "Octets of the datagrams of a lane that the system took.",
        kind: "counter",
        line: "lane",
        labels: LANE,
        value: WordPlace::Behind("octets", 1),
        unit: Unit::One,
    },
    Family {
        name: "confbridge_lane_waited_packets_total",
        help: "Datagrams of a lane for which the socket was not ready at once.",
        kind: "counter",
        line: "lane",
        labels: LANE,
        value: WordPlace::Behind("waited", 1),
        unit: Unit::One,
    },
    Family {
        name: "confbridge_lane_unsent_packets_total",
        help: "Datagrams of a lane that were not sent, by the cause.",
        kind: "counter",
        line: "lane",
        labels: Labels::Two(
            LANE_NUMBER,
            Label {
                name: "cause",
                place: WordPlace::Fixed("not-ready"),
            },
        ),
        value: WordPlace::Behind("not-ready", 1),
        unit: Unit::One,
    },
    Family {
        name: "confbridge_lane_unsent_packets_total",
        help: "",
        kind: "counter",
        line: "lane",
        labels: Labels::Two(
            LANE_NUMBER,
            Label {
                name: "cause",
                place: WordPlace::Fixed("denied"),
            },
        ),
        value: WordPlace::Behind("denied", 1),
        unit: Unit::One,
    },
    Family {
        name: "confbridge_lane_unsent_packets_total",
        help: "",
        kind: "counter",
        line: "lane",
        labels: Labels::Two(
            LANE_NUMBER,
            Label {
                name: "cause",
                place: WordPlace::Fixed("refused"),
            },
        ),
        value: WordPlace::Behind("refused", 1),
        unit: Unit::One,
    },
    Family {
        name: "confbridge_lane_unsent_packets_total",
        help: "",
        kind: "counter",
        line: "lane",
        labels: Labels::Two(
            LANE_NUMBER,
            Label {
                name: "cause",
                place: WordPlace::Fixed("unreachable"),
            },
        ),
        value: WordPlace::Behind("unreachable", 1),
        unit: Unit::One,
    },
    Family {
        name: "confbridge_lane_unsent_packets_total",
        help: "",
        kind: "counter",
        line: "lane",
        labels: Labels::Two(
            LANE_NUMBER,
            Label {
                name: "cause",
                place: WordPlace::Fixed("too-long"),
            },
        ),
        value: WordPlace::Behind("too-long", 1),
        unit: Unit::One,
    },
    Family {
        name: "confbridge_lane_unsent_packets_total",
        help: "",
        kind: "counter",
        line: "lane",
        labels: Labels::Two(
            LANE_NUMBER,
            Label {
                name: "cause",
                place: WordPlace::Fixed("other"),
            },
        ),
        value: WordPlace::Behind("other", 1),
        unit: Unit::One,
    },
    Family {
        name: "confbridge_limited_feedback_total",
        help: "NACKs, report blocks and PLIs that the rate limiter left out.",
        kind: "counter",
        line: "limited",
        labels: Labels::One(Label {
            name: "kind",
            place: WordPlace::Fixed("nacks"),
        }),
        value: WordPlace::Behind("nacks", 1),
        unit: Unit::One,
    },
    Family {
        name: "confbridge_limited_feedback_total",
        help: "",
        kind: "counter",
        line: "limited",
        labels: Labels::One(Label {
            name: "kind",
            place: WordPlace::Fixed("blocks"),
        }),
        value: WordPlace::Behind("blocks", 1),
        unit: Unit::One,
    },
    Family {
        name: "confbridge_limited_feedback_total",
        help: "",
        kind: "counter",
        line: "limited",
        labels: Labels::One(Label {
            name: "kind",
            place: WordPlace::Fixed("plis"),
        }),
        value: WordPlace::Behind("plis", 1),
        unit: Unit::One,
    },
    Family {
        name: "confbridge_socket_receive_buffer_bytes",
        help: "Octets of datagrams that wait at most until they are read.",
        kind: "gauge",
        line: "socket",
        labels: Labels::Nothing,
        value: WordPlace::Behind("receive-buffer", 1),
        unit: Unit::One,
    },
    Family {
        name: "confbridge_socket_send_buffer_bytes",
        help: "Octets of datagrams that wait at most until they leave.",
        kind: "gauge",
        line: "socket",
        labels: Labels::Nothing,
        value: WordPlace::Behind("send-buffer", 1),
        unit: Unit::One,
    },
    Family {
        name: "confbridge_socket_drops_total",
        help: "Datagrams that the system dropped at the socket, as where its receive buffer was full.",
        kind: "counter",
        line: "socket",
        labels: Labels::Nothing,
        value: WordPlace::Behind("drops", 1),
        unit: Unit::One,
    },
    Family {
        name: "confbridge_seats_used",
        help: "Seats of operators that are in use.",
        kind: "gauge",
        line: "seats",
        labels: Labels::Nothing,
        value: WordPlace::Word(1),
        unit: Unit::One,
    },
    Family {
        name: "confbridge_seats",
        help: "Seats of operators.",
        kind: "gauge",
        line: "seats",
        labels: Labels::Nothing,
        value: WordPlace::Behind("of", 1),
        unit: Unit::One,
    },
];

/// What a bridge does.
pub(crate) fn bridge_families() -> &'static [Family] {
    BRIDGE
}
