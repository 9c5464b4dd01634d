//! Tests of the workers' layers, a file a crate: the board, the path table, the scan and the descent, by worked examples and with ample memory.
#![tactic(auto)]

#[cfg(test)]
mod base;
#[cfg(test)]
mod board;
#[cfg(test)]
mod minimise;
#[cfg(test)]
mod path;
#[cfg(test)]
mod scan;
