ghost use Rattle.std.specs.Prelude.{◌≡◌, ◌<◌, ◌≤◌, ◌-◌, ◌^◌};
ghost use Rattle.hc_num.specs.Number.{signed_value, wrapped, all_ones, is_top_set};

use std::marker::Model;

/// A number of a width from 1 to 128 bits, with or without a sign (the Handel-C manual, "Types"; the greatest width is
/// this project's own). Its bits, read without a sign, are below 2 to the power of the width.
#[derive(Clone, Copy, Debug)]
pub struct Num {
    width: u32,
    signed: bool,
    bits: u128,
}

impl Model for Num {
    ghost use Rattle.std.specs.Prelude.{◌<◌, ◌≤◌, ◌^◌};
    ghost use Rattle.hc_num.specs.Number.{Number};

    ghost Value = { Number };

    ghost view = { λ n. record { width = n.width; signed = n.signed; bits = n.bits } };

    ghost invariant = { λ n. (1 ≤ n.width) × (n.width ≤ 128) × (n.bits < 2 ^ n.width) };

    ghost inverse = { λ n. record { width = n.width; signed = n.signed; bits = n.bits } };
}

impl Num {
    /// The number of `width` bits, 1 to 128, with these bits, which are below 2 to the power of the width.
    pub fn new(width: u32, signed: bool, bits: u128) -> Num
        requires least { 1 ≤ width }
        requires most { width ≤ 128 }
        requires fits { bits < 2 ^ width }
        ensures { result ≡ record { width = width; signed = signed; bits = bits } }
    {
        Num {
            width,
            signed,
            bits,
        }
    }

    /// The width in bits, 1 to 128.
    pub fn width(&self) -> u32
        ensures width { result ≡ self.now.width }
        ensures least { 1 ≤ result }
        ensures most { result ≤ 128 }
    {
        self.width
    }

    /// Whether the highest bit counts as a sign.
    pub fn signed(&self) -> bool
        ensures { result ≡ self.now.signed }
    {
        self.signed
    }

    /// The bits as a number without a sign, below 2 to the power of the width.
    pub fn bits(&self) -> u128
        ensures bits { result ≡ self.now.bits }
        ensures fits { result < 2 ^ self.now.width }
    {
        self.bits
    }

    /// The bits as a number in two's complement, whatever the sign of the type: below 0 where the highest bit is set.
    pub fn to_signed(self) -> i128
        ensures { result ≡ signed_value self }
    {
        if self.is_top_set() {
            -1 - (self.all_ones() - self.bits()).cast_signed()
        } else {
            self.bits().cast_signed()
        }
    }

    // A number of the same type, of which `bits` has the lowest bits.
    pub(crate) fn wrapped(self, bits: u128) -> Num
        ensures value { result ≡ wrapped self bits }
        ensures most { self.width ≤ 128 }
    {
        Num::new(self.width(), self.signed(), bits & self.all_ones())
    }

    // 2 to the power of the width, less 1.
    pub(crate) fn all_ones(self) -> u128
        ensures { result ≡ all_ones self }
    {
        low_ones(self.width())
    }

    // Whether the highest bit is set.
    pub(crate) fn is_top_set(self) -> bool
        ensures value { result ≡ is_top_set self }
        ensures most { self.width ≤ 128 }
    {
        1 << (self.width() - 1) <= self.bits()
    }
}

// The number whose lowest `count` bits are ones: no shift by 128 is made for 128 of them.
pub(crate) fn low_ones(count: u32) -> u128
    requires least { 1 ≤ count }
    requires most { count ≤ 128 }
    ensures { result ≡ 2 ^ count - 1 }
{
    u128::MAX >> (128 - count)
}
