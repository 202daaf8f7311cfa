//! Tests of lanes that run, of what no contract says: that lanes handle what they are given, that threads run at once,
//! and that memory suffices. Begin with `OneDesk` in `stage`, at which each test plays.
#![tactic(auto)]

#[cfg(test)]
mod beginning;
#[cfg(test)]
mod counts;
#[cfg(test)]
mod gathering;
#[cfg(test)]
mod handled;
#[cfg(test)]
mod items;
#[cfg(test)]
mod lanes;
#[cfg(test)]
mod list_sink;
#[cfg(test)]
mod paces;
#[cfg(test)]
mod refusal;
#[cfg(test)]
mod ring;
#[cfg(test)]
mod rings;
#[cfg(test)]
mod rows;
#[cfg(test)]
mod running;
#[cfg(test)]
mod runs;
#[cfg(test)]
mod sleeping;
#[cfg(test)]
mod stage;
#[cfg(test)]
mod streams;
#[cfg(test)]
mod together;
#[cfg(test)]
mod told;
#[cfg(test)]
mod unsignalled;
