//! The sinks of lanes, over wires that a script answers for, with a gate behind each datagram.

ghost use Rattle.std.specs.Prelude.{◌≡◌, [], All, IfOk};

use crate::datagram::Datagram;
use crate::fate::{Fate, fate_of};
use crate::gate::Gate;
use bridge_core::Egress;
use lane_wire::{LaneWire, SendCounts, SendFault, SharedCounts, WireLog, WireSink};
use std::alloc::{AllocError, Global};
use std::sync::{Arc, Wait};

/// How many pauses a sink makes for a datagram at most.
const MOST_PAUSES: u64 = 20;

/// The tries of a datagram.
#[derive(Drop)]
struct Tries {
    alloc: Global,
    seed: u64,
    /// How many datagrams came before this one.
    number: u64,
    /// What becomes of it, and for how many more tries the wire isn't ready.
    fate: Fate,
    /// How many pauses were made for it.
    pauses: u64,
    /// Whether the one before it was given up. Then no pause is made for it.
    is_stuck: bool,
    /// The datagram, while it is tried.
    tried: Option<Datagram>,
}

impl Tries {
    /// None was made.
    fn new(alloc: Global, seed: u64) -> Self {
        Self {
            alloc,
            seed,
            number: 0,
            fate: fate_of(seed, 0),
            pauses: 0,
            is_stuck: false,
            tried: None,
        }
    }

    /// Tries once to send a datagram.
    fn try_once(&mut self, egress: &Egress) -> Result<(), SendFault> {
        if self.pauses == 0 {
            self.fate = fate_of(self.seed, self.number);
            self.number = self.number.saturating_add(1);
            self.tried = Datagram::of_egress(self.alloc, egress).unwrap_or(None);
        }
        if self.fate.unready == 0 {
            return self.fate.answer;
        }
        self.fate.unready = self.fate.unready.saturating_sub(1);
        Err(SendFault::NotReady)
    }

    /// Whether the sink tries the datagram again after this answer. If it doesn't, the next try is of the next one.
    fn goes_on(&mut self, answer: Result<(), SendFault>) -> bool {
        let is_unready = answer == Err(SendFault::NotReady);
        if is_unready && !self.is_stuck && self.pauses < MOST_PAUSES {
            return true;
        }
        self.is_stuck = is_unready;
        self.pauses = 0;
        false
    }
}

/// A lane's wire, which answers by the fates of datagrams. Behind the last try of each is a gate.
#[derive(Drop)]
pub struct FatedWire<R: Wait + Drop> {
    rt: R,
    gate: Arc<Gate, Global>,
    tries: Tries,
    log: WireLog,
}

/// The sink of the program over such a wire.
pub type FatedSink<R> = WireSink<FatedWire<R>>;

impl<R: Wait + Drop> LaneWire for FatedWire<R> {
    ghost use Rattle.lane_wire.specs.Logs.{step_list};

    ghost steps = { λ wire. step_list wire.log };

    fn send(&mut self, egress: &Egress) -> Result<(), SendFault> {
        let answer = self.tries.try_once(egress);
        self.log.note_try(egress, &answer);
        if !self.tries.goes_on(answer) {
            self.gate.pass(&self.rt, self.tries.tried.take());
        }
        answer
    }

    fn pause<S: Wait>(&mut self, _rt: &S) {
        self.tries.pauses = self.tries.pauses.saturating_add(1);
        self.log.note_pause();
    }

    fn into_log(self) -> WireLog {
        self.log
    }
}

/// How many datagrams were counted: as sent, or by why they were not.
pub fn counted(counts: &SendCounts) -> u64 {
    counts
        .packets
        .saturating_add(counts.not_ready)
        .saturating_add(counts.denied)
        .saturating_add(counts.refused)
        .saturating_add(counts.unreachable)
        .saturating_add(counts.too_long)
        .saturating_add(counts.other)
}

/// A gate for each of so many lanes.
pub fn gates_for(alloc: Global, count: usize) -> Result<Vec<Arc<Gate, Global>>, AllocError> {
    let mut gates = Vec::new(alloc);
    for _ in 0..count {
        gates.push(Arc::new(alloc, Gate::new(alloc))?)?;
    }
    Ok(gates)
}

/// A sink for each of these gates.
pub fn sinks_for<R: Wait + Copy + Drop>(
    rt: &R,
    alloc: Global,
    gates: &[Arc<Gate, Global>],
    seed: u64,
) -> Result<Vec<FatedSink<R>>, AllocError>
    ensures { IfOk result (λ sinks. All (λ sink. sink.taken ≡ []) sinks.items) }
{
    let mut sinks = Vec::new(alloc);
    for gate in gates {
        let wire = FatedWire {
            rt: *rt,
            gate: Arc::try_clone(gate)?,
            tries: Tries::new(alloc, seed),
            log: WireLog::new(),
        };
        let shown = Arc::new(alloc, SharedCounts::new(alloc)?)?;
        let sink = WireSink::new(wire, shown);
        sinks.push(sink)?;
    }
    Ok(sinks)
}
