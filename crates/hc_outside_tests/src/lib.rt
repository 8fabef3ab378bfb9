//! Tests of stores and sinks by what their crate offers. They stand apart, so that it isn't proved once more for its tests.
#![tactic(auto)]

#[cfg(test)]
mod outside;
