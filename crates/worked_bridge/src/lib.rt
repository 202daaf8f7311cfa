//! Worked calls of the core and of the texts: single answers, each proved from the contract of the call that gives it.
#![tactic(auto)]

// Calls of operators.
pub mod beginning;
pub mod calling;
pub mod carrying_out;
pub mod taking_back;

// Datagrams and items.
pub mod dropping;
pub mod framing;
pub mod ingress_laws;
pub mod sending;
pub mod stepping;

// Whole runs.
pub mod running;
pub mod whole_runs;

// Texts.
pub mod answering;
pub mod front_laws;
pub mod printing;
pub mod script_laws;
pub mod spelling;
