ghost use Rattle.std.specs.Prelude.{◌≡◌, ◌≢◌, ◌≤◌, ◌^◌, true, false, pos, unsigned_abs};
ghost use Rattle.hc_width.specs.Whole.{signed_whole, is_negative, holds, in_range, within_range};

use std::marker::Model;

/// A constant without a width: a whole number from -2^127 to 2^128 - 1. Contracts see the number.
#[derive(Clone, Copy, Debug)]
pub struct Whole {
    negative: bool,
    magnitude: u128,
}

impl Model for Whole {
    ghost use Rattle.std.specs.Prelude.{◌≡◌, ◌≤◌, ◌^◌, true, false, ℤ, unsigned_abs};
    ghost use Rattle.hc_width.specs.Whole.{signed_whole, is_negative};

    ghost Value = { ℤ };

    ghost view = { λ n. signed_whole n.negative n.magnitude };

    ghost inverse = { λ v. record { negative = is_negative v; magnitude = unsigned_abs v } };

    ghost invariant = { λ n. (n.negative ≡ true → (1 ≤ n.magnitude) × (n.magnitude ≤ 2 ^ 127)) };
}

// The greatest magnitude of a negative constant.
const MOST_NEGATIVE: u128 = 1 << 127;

impl Whole {
    /// The number of this magnitude, which is negative or isn't: 0 isn't negative, and a negative one has a magnitude of
    /// at most 2^127.
    pub fn new(negative: bool, magnitude: u128) -> Whole
        requires { negative ≡ true → (1 ≤ magnitude) × (magnitude ≤ 2 ^ 127) }
        ensures { result ≡ signed_whole negative magnitude }
    {
        Whole {
            negative,
            magnitude,
        }
    }

    /// A number that isn't negative.
    pub fn from_number(magnitude: u128) -> Whole
        ensures { result ≡ pos magnitude }
    {
        Whole::new(false, magnitude)
    }

    /// Whether it is below 0.
    pub fn is_negative(&self) -> bool
        ensures { result ≡ is_negative self.now }
    {
        self.negative
    }

    /// The number without its sign.
    pub fn magnitude(&self) -> u128
        ensures value { result ≡ unsigned_abs self.now }
        ensures most { is_negative self.now ≡ true → result ≤ 2 ^ 127 }
        ensures number { signed_whole (is_negative self.now) result ≡ self.now }
        ensures range { in_range self.now ≡ true }
    {
        self.magnitude
    }

    /// Whether it holds as a condition: it isn't 0.
    pub fn holds(self) -> bool
        ensures { result ≡ holds self }
    {
        self.magnitude != 0
    }

    // The number of this magnitude, which is to be negative or not, or None where it is out of range.
    pub(crate) fn within_range(negative: bool, magnitude: u128) -> Option<Whole>
        ensures { result ≡ within_range (signed_whole negative magnitude) }
    {
        if !negative || magnitude == 0 {
            Some(Whole::from_number(magnitude))
        } else if magnitude <= MOST_NEGATIVE {
            Some(Whole::new(true, magnitude))
        } else {
            None
        }
    }
}
