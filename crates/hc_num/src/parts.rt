ghost use Rattle.std.specs.Prelude.{◌≡◌, ◌+◌, ◌<◌, ◌≤◌};
ghost use Rattle.hc_num.specs.Parts.{low_part, high_part, joined, bit_range};

use crate::num::{Num, low_ones};

/// Parts of a number, and two numbers as one (the Handel-C manual, "Bit manipulation operators"; the greatest width of
/// 128 bits is this project's own).
impl Num {
    /// `self <- n`: the lowest `n` bits, 1 to the width of them, with the sign of `self`.
    pub fn take_low(self, n: u32) -> Num
        requires least { 1 ≤ n }
        requires most { n ≤ self.width }
        ensures { result ≡ low_part self n }
    {
        Num::new(n, self.signed(), self.bits() & low_ones(n))
    }

    /// `self \\ n`: all but the lowest `n` bits, of which there are fewer than the width, with the sign of `self`.
    pub fn drop_low(self, n: u32) -> Num
        requires { n < self.width }
        ensures { result ≡ high_part self n }
    {
        Num::new(self.width() - n, self.signed(), self.bits() >> n)
    }

    /// `self @ low`: the bits of `self` above those of `low`, at most 128 together, with the sign of `self`.
    pub fn concat(self, low: Num) -> Num
        requires { self.width + low.width ≤ 128 }
        ensures { result ≡ joined self low }
    {
        let bits = (self.bits() << low.width()) + low.bits();
        Num::new(self.width() + low.width(), self.signed(), bits)
    }

    /// `self[high:low]`: the bits from `low` to `high`, both counted from 0 and below the width, without a sign.
    pub fn slice(self, high: u32, low: u32) -> Num
        requires order { low ≤ high }
        requires inside { high < self.width }
        ensures { result ≡ bit_range self high low }
    {
        let width = high - low + 1;
        Num::new(width, false, (self.bits() >> low) & low_ones(width))
    }
}
