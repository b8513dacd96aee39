//! Tests of `jh_cli` and `jh_arguments`, through their public calls alone: what no clause says. These are the texts of errors, of
//! help and of complaints, byte for byte; that a command does its work when there is memory; that long inputs are stood; and,
//! as worked examples, that what is written is what was meant.
//!
//! A row is arguments or an input, an arrow, and the answer: a status, and all that is written. `§` begins each row but the first.
//! A table is one text, since the proof of an array takes a second for each row, and that of a text takes nothing.
#![tactic(auto)]

#[cfg(test)]
mod answers;
#[cfg(test)]
mod arguments;
#[cfg(test)]
mod environments;
#[cfg(test)]
mod errors;
#[cfg(test)]
mod examples;
#[cfg(test)]
mod explained;
#[cfg(test)]
mod first;
#[cfg(test)]
mod histories;
#[cfg(test)]
mod hostile;
#[cfg(test)]
mod nobody;
#[cfg(test)]
mod options;
#[cfg(test)]
mod plots;
#[cfg(test)]
mod recorded;
#[cfg(test)]
mod rows;
#[cfg(test)]
mod runs;
#[cfg(test)]
mod searches;
#[cfg(test)]
mod shrinks;
#[cfg(test)]
mod streams;
#[cfg(test)]
mod tests;
#[cfg(test)]
mod timelines;
