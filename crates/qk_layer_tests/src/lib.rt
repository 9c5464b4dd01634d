//! Tests of the layers between the language and the top call, a file a crate: the course of a property, rounds, report and words.
#![tactic(auto)]

#[cfg(test)]
mod report;
#[cfg(test)]
mod rounds;
#[cfg(test)]
mod schedule;
#[cfg(test)]
mod words;
