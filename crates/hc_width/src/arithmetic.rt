ghost use Rattle.std.specs.Prelude.{◌≡◌, ◌≢◌, ◌^◌, ◌/◌, ◌+ℤ◌, ◌-ℤ◌, ◌*ℤ◌, neg_ℤ, pos, false, int_div, int_rem, int_lt, int_le, ◌&&◌};
ghost use Rattle.std.specs.Int.{int_div_euclid};
ghost use Rattle.hc_width.specs.Whole.{signed_whole, is_negative, within_range};

use crate::whole::Whole;

// Arithmetic of constants over whole numbers, with None where a value is out of range (this project's own).
impl Whole {
    // `-self`
    pub(crate) fn neg(self) -> Option<Whole>
        ensures { result ≡ within_range (neg_ℤ self) }
    {
        Whole::within_range(!self.is_negative(), self.magnitude())
    }

    // `self + other`
    pub(crate) fn add(self, other: Whole) -> Option<Whole>
        ensures { result ≡ within_range (self +ℤ other) }
    {
        sum(
            self.is_negative(),
            self.magnitude(),
            other.is_negative(),
            other.magnitude(),
        )
    }

    // `self - other`
    pub(crate) fn sub(self, other: Whole) -> Option<Whole>
        ensures { result ≡ within_range (self -ℤ other) }
    {
        sum(
            self.is_negative(),
            self.magnitude(),
            !other.is_negative(),
            other.magnitude(),
        )
    }

    // `self * other`
    pub(crate) fn mul(self, other: Whole) -> Option<Whole>
        ensures { result ≡ within_range (self *ℤ other) }
    {
        match self.magnitude().checked_mul(other.magnitude()) {
            Some(product) => {
                Whole::within_range(self.is_negative() != other.is_negative(), product)
            }
            None => None,
        }
    }

    // `self / other`, rounded towards 0.
    pub(crate) fn div(self, other: Whole) -> Option<Whole>
        requires { other ≢ pos 0 }
        ensures { result ≡ within_range (int_div self other) }
    {
        let quotient = self.magnitude() / other.magnitude();
        Whole::within_range(self.is_negative() != other.is_negative(), quotient)
    }

    // The remainder of `self / other`, with the sign of `self`.
    pub(crate) fn rem(self, other: Whole) -> Option<Whole>
        requires { other ≢ pos 0 }
        ensures { result ≡ within_range (int_rem self other) }
    {
        let remainder = self.magnitude() % other.magnitude();
        Whole::within_range(self.is_negative(), remainder)
    }

    // `self` times 2 to the power of `amount`.
    pub(crate) fn shl(self, amount: u128) -> Option<Whole>
        ensures { result ≡ within_range (self *ℤ pos (2 ^ amount)) }
    {
        if self.magnitude() == 0 {
            Some(self)
        } else if amount >= 128 {
            None
        } else {
            match self.magnitude().checked_mul(1 << amount) {
                Some(product) => Whole::within_range(self.is_negative(), product),
                None => None,
            }
        }
    }

    // `self` divided by 2 to the power of `amount`, rounded down.
    pub(crate) fn shr(self, amount: u128) -> Option<Whole>
        ensures { result ≡ within_range (int_div_euclid self (pos (2 ^ amount))) }
    {
        if self.is_negative() {
            let rounded = shifted_down(self.magnitude() - 1, amount) + 1;
            Whole::within_range(true, rounded)
        } else {
            Whole::within_range(false, shifted_down(self.magnitude(), amount))
        }
    }

    // Whether `self < other`.
    pub(crate) fn less(self, other: Whole) -> bool
        ensures { result ≡ int_lt self other }
    {
        match (self.is_negative(), other.is_negative()) {
            (false, false) => self.magnitude() < other.magnitude(),
            (false, true) => false,
            (true, false) => true,
            (true, true) => other.magnitude() < self.magnitude(),
        }
    }

    // Whether `self == other`.
    pub(crate) fn equal(self, other: Whole) -> bool
        ensures { result ≡ (int_le self other && int_le other self) }
    {
        self.is_negative() == other.is_negative() && self.magnitude() == other.magnitude()
    }
}

// `bits >> amount`, also for an amount of 128 and more.
fn shifted_down(bits: u128, amount: u128) -> u128
    ensures { result ≡ bits / 2 ^ amount }
{
    if amount < 128 { bits >> amount } else { 0 }
}

// The sum of two numbers, each by its sign and its magnitude.
fn sum(left_negative: bool, left: u128, right_negative: bool, right: u128) -> Option<Whole>
    ensures { result ≡ within_range (signed_whole left_negative left +ℤ signed_whole right_negative right) }
{
    if left_negative == right_negative {
        match left.checked_add(right) {
            Some(total) => Whole::within_range(left_negative, total),
            None => None,
        }
    } else if right <= left {
        Whole::within_range(left_negative, left - right)
    } else {
        Whole::within_range(right_negative, right - left)
    }
}
