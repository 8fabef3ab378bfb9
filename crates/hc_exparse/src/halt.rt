ghost use Rattle.std.specs.Prelude.{◌≡◌, ◌≤◌};
ghost use Rattle.hc_exparse.specs.Last.{with_last, halt_or_zero, halt_later, IsWithin};

use hc_grammar::Halt;

/// The halt of a part behind which more is wanted, as the halt of the whole, with this number.
pub(crate) fn with_last(halt: Halt, last: Option<usize>) -> Halt
    ensures { result ≡ with_last last halt }
{
    match halt {
        Halt::Refused(_) => Halt::Refused(last),
        Halt::NoMemory => Halt::NoMemory,
    }
}

/// The halt of a form that may be empty.
pub(crate) fn or_zero(halt: Halt) -> Halt
    ensures { result ≡ halt_or_zero halt }
{
    match halt {
        Halt::Refused(Some(count)) => Halt::Refused(Some(count)),
        Halt::Refused(None) => Halt::Refused(Some(0)),
        Halt::NoMemory => Halt::NoMemory,
    }
}

/// The halt of a part with `at` tokens left, as the halt of a whole that began with `before` tokens left.
pub(crate) fn later(halt: Halt, before: usize, at: usize) -> Halt
    requires order { at ≤ before }
    requires within { IsWithin at halt }
    ensures { result ≡ halt_later before at halt }
{
    match halt {
        Halt::Refused(Some(count)) => Halt::Refused(Some(before - at + count)),
        Halt::Refused(None) => Halt::Refused(None),
        Halt::NoMemory => Halt::NoMemory,
    }
}
