//! The metrics of outgoing streams. A row here is a metric.

use crate::labelling::{Label, Labels};
use crate::metrics::{Family, Unit};
use crate::reading::WordPlace;

const STREAM: Labels = Labels::One(Label {
    name: "ssrc",
    place: WordPlace::Word(1),
});

const STREAMS: &[Family] = &[
    Family {
        name: "confbridge_stream_lost_256ths",
        help: "Loss of an outgoing stream since its receiver's report before the last one, in 256ths.",
        kind: "gauge",
        line: "stream",
        labels: STREAM,
        value: WordPlace::Behind("fraction", 1),
        unit: Unit::One,
    },
    Family {
        name: "confbridge_stream_lost_packets",
        help: "Lost packets of an outgoing stream, by its receiver's last report.",
        kind: "gauge",
        line: "stream",
        labels: STREAM,
        value: WordPlace::Behind("lost", 1),
        unit: Unit::One,
    },
    Family {
        name: "confbridge_stream_highest_sequence_number",
        help: "Extended highest sequence number of an outgoing stream, by its receiver's last report.",
        kind: "gauge",
        line: "stream",
        labels: STREAM,
        value: WordPlace::Behind("highest", 2),
        unit: Unit::One,
    },
    Family {
        name: "confbridge_stream_jitter_seconds",
        help: "Interarrival jitter of an outgoing stream, by its receiver's last report.",
        kind: "gauge",
        line: "stream",
        labels: STREAM,
        value: WordPlace::Behind("jitter", 1),
        unit: Unit::Thousandth,
    },
    Family {
        name: "confbridge_stream_round_trip_seconds",
        help: "Round trip to the receiver of an outgoing stream, by its last report that tells one.",
        kind: "gauge",
        line: "stream",
        labels: STREAM,
        value: WordPlace::Behind("round-trip", 1),
        unit: Unit::Thousandth,
    },
    Family {
        name: "confbridge_stream_packets_total",
        help: "Packets of an outgoing stream that the system took.",
        kind: "counter",
        line: "stream",
        labels: STREAM,
        value: WordPlace::Behind("packets", 1),
        unit: Unit::One,
    },
    Family {
        name: "confbridge_stream_bytes_total",
        help: "Octets of the packets of an outgoing stream that the system took.",
        kind: "counter",
        line: "stream",
        labels: STREAM,
        value: WordPlace::Behind("octets", 1),
        unit: Unit::One,
    },
    Family {
        name: "confbridge_stream_resent_packets_total",
        help: "Packets of an outgoing stream that were sent again.",
        kind: "counter",
        line: "stream",
        labels: STREAM,
        value: WordPlace::Behind("resent", 1),
        unit: Unit::One,
    },
];

/// What is sent, and what receivers report of it.
pub(crate) fn stream_families() -> &'static [Family] {
    STREAMS
}
