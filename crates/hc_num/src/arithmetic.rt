ghost use Rattle.std.specs.Prelude.{◌≡◌, false};
ghost use Rattle.hc_num.specs.Arithmetic.{sum, difference, product, negation, quotient, remainder};

use crate::num::Num;

/// Arithmetic modulo 2 to the power of the width (the Handel-C manual, "Arithmetic operators").
impl Num {
    /// `self + other`, of the type of both, modulo 2 to the power of the width.
    pub fn add(self, other: Num) -> Num
        requires width { self.width ≡ other.width }
        requires sign { self.signed ≡ other.signed }
        ensures { result ≡ sum self other }
    {
        self.wrapped(self.bits().wrapping_add(other.bits()))
    }

    /// `self - other`, of the type of both, modulo 2 to the power of the width.
    pub fn sub(self, other: Num) -> Num
        requires width { self.width ≡ other.width }
        requires sign { self.signed ≡ other.signed }
        ensures { result ≡ difference self other }
    {
        self.wrapped(self.bits().wrapping_sub(other.bits()))
    }

    /// `self * other`, of the type of both, modulo 2 to the power of the width.
    pub fn mul(self, other: Num) -> Num
        requires width { self.width ≡ other.width }
        requires sign { self.signed ≡ other.signed }
        ensures { result ≡ product self other }
    {
        self.wrapped(self.bits().wrapping_mul(other.bits()))
    }

    /// `-self`, of the same type, modulo 2 to the power of the width.
    pub fn neg(self) -> Num
        ensures { result ≡ negation self }
    {
        self.wrapped(0u128.wrapping_sub(self.bits()))
    }

    /// `self / other` of numbers without a sign, rounded down. Where `other` is 0 it is all ones, which is this
    /// project's own.
    pub fn div(self, other: Num) -> Num
        requires width { self.width ≡ other.width }
        requires unsigned { self.signed ≡ false }
        requires other_unsigned { other.signed ≡ false }
        ensures { result ≡ quotient self other }
    {
        let bits = self
            .bits()
            .checked_div(other.bits())
            .unwrap_or(self.all_ones());
        Num::new(self.width(), self.signed(), bits)
    }

    /// The remainder of `self / other` of numbers without a sign. Where `other` is 0 it is `self`, which is this
    /// project's own.
    pub fn rem(self, other: Num) -> Num
        requires width { self.width ≡ other.width }
        requires unsigned { self.signed ≡ false }
        requires other_unsigned { other.signed ≡ false }
        ensures { result ≡ remainder self other }
    {
        let bits = self.bits().checked_rem(other.bits()).unwrap_or(self.bits());
        Num::new(self.width(), self.signed(), bits)
    }
}
