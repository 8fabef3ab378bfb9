ghost use Rattle.std.specs.Prelude.{◌≡◌};
ghost use Rattle.hc_num.specs.Bits.{conjunction, disjunction, exclusive_or, complement};

use crate::num::Num;

/// Operators on each bit by itself (the Handel-C manual, "Bitwise logical operators").
impl Num {
    /// `self & other`, bit by bit, of the type of both.
    pub fn and(self, other: Num) -> Num
        requires width { self.width ≡ other.width }
        requires sign { self.signed ≡ other.signed }
        ensures { result ≡ conjunction self other }
    {
        Num::new(self.width(), self.signed(), self.bits() & other.bits())
    }

    /// `self | other`, bit by bit, of the type of both.
    pub fn or(self, other: Num) -> Num
        requires width { self.width ≡ other.width }
        requires sign { self.signed ≡ other.signed }
        ensures { result ≡ disjunction self other }
    {
        Num::new(self.width(), self.signed(), self.bits() | other.bits())
    }

    /// `self ^ other`, bit by bit, of the type of both.
    pub fn xor(self, other: Num) -> Num
        requires width { self.width ≡ other.width }
        requires sign { self.signed ≡ other.signed }
        ensures { result ≡ exclusive_or self other }
    {
        Num::new(self.width(), self.signed(), self.bits() ^ other.bits())
    }

    /// `~self`: each bit turned, of the same type.
    pub fn not(self) -> Num
        ensures { result ≡ complement self }
    {
        Num::new(self.width(), self.signed(), self.all_ones() - self.bits())
    }
}
