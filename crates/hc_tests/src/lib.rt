//! Tests of what the program itself can't show: jobs whose store fails, sources as netlists that run on `Gates`, and calls that
//! no job makes. They stand apart, so that no crate is proved once more for its tests.
#![tactic(auto)]

#[cfg(test)]
mod expressions;
#[cfg(test)]
mod gates;
#[cfg(test)]
mod jobs;
#[cfg(test)]
mod texts;
