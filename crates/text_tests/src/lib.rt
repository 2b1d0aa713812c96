//! Tests of charts, words, cuts and tables as texts, from outside: what is read, and the first line and check that refuses a text.
#![tactic(auto)]

#[cfg(test)]
mod tests;
