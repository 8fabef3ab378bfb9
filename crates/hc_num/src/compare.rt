ghost use Rattle.std.specs.Prelude.{◌≡◌};
ghost use Rattle.hc_num.specs.Compare.{truth, is_equal, is_less};

use crate::num::Num;

/// Comparisons, whose answers are one bit without a sign (the Handel-C manual, "Relational operators").
impl Num {
    /// Whether `self == other`: 1 for yes and 0 for no, of width 1 without a sign.
    pub fn eq(self, other: Num) -> Num
        requires width { self.width ≡ other.width }
        requires sign { self.signed ≡ other.signed }
        ensures { result ≡ truth (is_equal self other) }
    {
        truth(self.bits() == other.bits())
    }

    /// Whether `self < other`: 1 for yes and 0 for no, of width 1 without a sign. Numbers with a sign are compared in
    /// two's complement.
    pub fn lt(self, other: Num) -> Num
        requires width { self.width ≡ other.width }
        requires sign { self.signed ≡ other.signed }
        ensures { result ≡ truth (is_less self other) }
    {
        if self.signed() {
            truth(self.to_signed() < other.to_signed())
        } else {
            truth(self.bits() < other.bits())
        }
    }
}

fn truth(holds: bool) -> Num
    ensures { result ≡ truth holds }
{
    Num::new(1, false, u128::from(holds))
}
