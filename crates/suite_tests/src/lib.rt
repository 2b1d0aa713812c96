//! Tests of suites from outside: charts are read and explored, and the suites that are made of them are compared, as
//! values, with words and replies that are known.
#![tactic(auto)]

#[cfg(test)]
mod tests;
