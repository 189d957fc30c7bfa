//! Tests of what no contract says and no worked row shows: readers and writers that fail in mid-stream, what copies and
//! frozen states share, functions of types that the program hasn't, and library calls that it doesn't make, each once.
//!
//! They stand in a crate of their own, since a crate with tests is proved twice.
#![tactic(auto)]

#[cfg(test)]
mod accepting;
#[cfg(test)]
mod calling;
#[cfg(test)]
mod differing;
#[cfg(test)]
mod evaluating;
#[cfg(test)]
mod faulting;
#[cfg(test)]
mod library;
#[cfg(test)]
mod metering;
#[cfg(test)]
mod networks;
#[cfg(test)]
mod optimised;
#[cfg(test)]
mod playing;
#[cfg(test)]
mod printing;
#[cfg(test)]
mod probing;
#[cfg(test)]
mod saving;
#[cfg(test)]
mod sharing;
