//! Tests of the texts of stimuli and traces by what their crate offers. They stand apart, so that it isn't proved once
//! more for its tests.
#![tactic(auto)]

#[cfg(test)]
mod texts;
