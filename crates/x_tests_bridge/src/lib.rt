//! Readers, writers and wires that fail, packets that are missing, and pictures that are wanted. Tests alone.
#![tactic(auto)]

#[cfg(test)]
mod gating;
#[cfg(test)]
mod picturing;
#[cfg(test)]
mod reading;
#[cfg(test)]
mod sending;
#[cfg(test)]
mod waiting;
#[cfg(test)]
mod writing;
