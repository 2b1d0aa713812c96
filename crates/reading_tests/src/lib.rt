//! Tests of reading a suite's text from outside: what is read, and the first line that is refused.
#![tactic(auto)]

#[cfg(test)]
mod tests;
