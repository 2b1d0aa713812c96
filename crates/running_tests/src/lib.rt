//! Tests of running from outside: a suite of a speed alarm is run on plans and on scripts of replies, and its verdicts
//! are printed.
#![tactic(auto)]

#[cfg(test)]
mod tests;
