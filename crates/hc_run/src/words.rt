ghost use Rattle.std.specs.Prelude.{◌≡◌, ◌≢◌, ◌↔◌, [], ◌∷◌, map, MatchOption, IsTrue, codes, true};
ghost use Rattle.std.specs.String.{string_bytes};
ghost use Rattle.hc_run.specs.Words.{is_file_name, HasNoJob};
ghost use Rattle.hc_run.specs.Job.{IsJob};

/// The job that the words name.
#[derive(Clone, Copy)]
pub(crate) enum Job<'a> {
    /// To build the netlist of a source, and to save it as an EDIF file of that name.
    Build { file: &'a str, edif: &'a str },
    /// To check a source alone.
    Check { file: &'a str },
}

/// The job of the words after the program's name, or `None` where they have none.
pub(crate) fn read_words(words: &[String]) -> Option<Job<'_>>
    ensures { MatchOption result (HasNoJob (map string_bytes words.now)) (IsJob (map string_bytes words.now)) }
{
    match words {
        [job, file, option, edif] => {
            read_build(job.as_str(), file.as_str(), option.as_str(), edif.as_str())
        }
        [job, file] => read_check(job.as_str(), file.as_str()),
        _ => None,
    }
}

/// The job of four words.
fn read_build<'a>(job: &str, file: &'a str, option: &str, edif: &'a str) -> Option<Job<'a>>
    ensures { MatchOption result
        (HasNoJob (job.now ∷ file.now ∷ option.now ∷ edif.now ∷ []))
        (IsJob (job.now ∷ file.now ∷ option.now ∷ edif.now ∷ [])) }
{
    if job == "build"
        && option == "--edif"
        && is_file_name_of(file)
        && is_file_name_of(edif)
        && file != edif
    {
        Some(Job::Build { file, edif })
    } else {
        None
    }
}

/// The job of two words.
fn read_check<'a>(job: &str, file: &'a str) -> Option<Job<'a>>
    ensures { MatchOption result (HasNoJob (job.now ∷ file.now ∷ [])) (IsJob (job.now ∷ file.now ∷ [])) }
{
    if job == "check" && is_file_name_of(file) {
        Some(Job::Check { file })
    } else {
        None
    }
}

/// Whether a word may name a file: one of two bytes or more that begins with `-` is an option.
fn is_file_name_of(word: &str) -> bool
    ensures { result ≡ is_file_name word.now }
{
    match word.as_bytes() {
        [first, _, ..] => *first != b'-',
        _ => true,
    }
}
