//! Lemmas for rules that count over all views of a table's seats. There is no code.
#![tactic(auto)]
