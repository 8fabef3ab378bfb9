ghost use Rattle.std.specs.Prelude.{◌≡◌};
ghost use Rattle.hc_words.specs.Kind as spec;

/// Which job it is.
#[derive(Clone, Copy, Debug, PartialEq, Eq)]
pub(crate) enum Kind {
    Build,
    Check,
    Sim,
    Nsim,
    Compare,
    Gen,
    Cells,
}

/// The job that the first word names.
pub(crate) fn kind_of(word: &str) -> Option<Kind>
    ensures { result ≡ spec.kind_of word.now }
{
    if word == "build" {
        Some(Kind::Build)
    } else if word == "check" {
        Some(Kind::Check)
    } else if word == "sim" {
        Some(Kind::Sim)
    } else if word == "nsim" {
        Some(Kind::Nsim)
    } else if word == "compare" {
        Some(Kind::Compare)
    } else if word == "gen" {
        Some(Kind::Gen)
    } else if word == "cells" {
        Some(Kind::Cells)
    } else {
        None
    }
}

/// The names of the two options of a job, empty where it has none.
pub(crate) fn options_of(kind: Kind) -> (&'static str, &'static str)
    ensures first { result.0.now ≡ spec.first_option kind }
    ensures second { result.1.now ≡ spec.second_option kind }
{
    match kind {
        Kind::Build => ("--edif", "--verilog"),
        Kind::Sim => ("--stim", "--trace"),
        Kind::Nsim => ("--stim", "--trace"),
        Kind::Compare => ("--net", "--stim"),
        Kind::Check => ("", ""),
        Kind::Gen => ("", ""),
        Kind::Cells => ("", ""),
    }
}
