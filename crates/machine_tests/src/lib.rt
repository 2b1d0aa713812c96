//! Tests of the machine's layers from outside: reduction, state cover, characterisation set and the words of a suite,
//! on machines whose words are known.
#![tactic(auto)]

#[cfg(test)]
mod tests;
