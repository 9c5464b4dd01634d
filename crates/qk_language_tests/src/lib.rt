//! Tests of the language's layers, a file a crate: values, evaluation, drawing, models and shrinking, by worked examples and with ample memory.
#![tactic(auto)]

#[cfg(test)]
mod command;
#[cfg(test)]
mod eval;
#[cfg(test)]
mod generators;
#[cfg(test)]
mod programs;
#[cfg(test)]
mod shrink;
#[cfg(test)]
mod splitmix;
#[cfg(test)]
mod value;
