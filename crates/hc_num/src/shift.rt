ghost use Rattle.std.specs.Prelude.{◌≡◌, ◌*◌, ◌%◌, ◌/◌, ◌^◌};
ghost use Rattle.hc_num.specs.Shift.{shifted_left, shifted_right, entering};

use crate::num::Num;

/// Shifts by any number of places (the Handel-C manual, "Shift operators").
impl Num {
    /// `self << amount`, of the same type: zeros enter at the low end, so it is 0 from an amount of the width on.
    pub fn shl(self, amount: u128) -> Num
        ensures { result ≡ shifted_left self amount }
    {
        self.wrapped(shifted_up(self.bits(), amount))
    }

    /// `self >> amount`, of the same type: at the high end zeros enter, or copies of the highest bit where `self` has
    /// a sign. From an amount of the width on all bits are those that entered.
    pub fn shr(self, amount: u128) -> Num
        ensures { result ≡ shifted_right self amount }
    {
        let stays = shifted_down(self.bits(), amount);
        let enters = self.entering(amount);
        Num::new(self.width(), self.signed(), stays + enters)
    }

    // The ones that enter above what is left after a shift to the right by `amount`.
    fn entering(self, amount: u128) -> u128
        ensures { result ≡ entering self amount }
    {
        if self.signed() && self.is_top_set() {
            self.all_ones() - shifted_down(self.all_ones(), amount)
        } else {
            0
        }
    }
}

// `bits << amount` of 128 bits, also for an amount of 128 and more.
fn shifted_up(bits: u128, amount: u128) -> u128
    ensures { result ≡ bits * 2 ^ amount % 2 ^ 128 }
{
    if amount < 128 { bits << amount } else { 0 }
}

// `bits >> amount`, also for an amount of 128 and more.
fn shifted_down(bits: u128, amount: u128) -> u128
    ensures { result ≡ bits / 2 ^ amount }
{
    if amount < 128 { bits >> amount } else { 0 }
}
