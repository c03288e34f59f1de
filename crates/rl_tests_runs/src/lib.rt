//! Worked rows of the protocol: the minds one by one, networks as texts driven by turns and on shared words, and what
//! their events are.
//!
//! It gives nothing upward and has tests alone. Their values are worked out by hand from the table of steps.
#![tactic(auto)]

#[cfg(test)]
mod boxes;
#[cfg(test)]
mod driven;
#[cfg(test)]
mod events;
#[cfg(test)]
mod moves;
#[cfg(test)]
mod networks;
#[cfg(test)]
mod nodes;
#[cfg(test)]
mod rails;
#[cfg(test)]
mod rounds;
#[cfg(test)]
mod tracks;
#[cfg(test)]
mod trains;
#[cfg(test)]
mod worlds;
