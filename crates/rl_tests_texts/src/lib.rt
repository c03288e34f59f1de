//! Worked examples of the layers below the protocol: names and words, texts, networks and their tables, reports,
//! command lines.
//!
//! It gives nothing upward and has tests alone. Their values come from the formats and the rules, by hand.
#![tactic(auto)]

#[cfg(test)]
mod audits;
#[cfg(test)]
mod command_lines;
#[cfg(test)]
mod names;
#[cfg(test)]
mod nets;
#[cfg(test)]
mod plans;
#[cfg(test)]
mod records;
#[cfg(test)]
mod rings;
#[cfg(test)]
mod short;
#[cfg(test)]
mod syntax;
#[cfg(test)]
mod tables;
#[cfg(test)]
mod texts;
#[cfg(test)]
mod words;
