ghost use Rattle.std.specs.Prelude.{◌≡◌, length};
ghost use Rattle.hc_stim.specs.Bench.{Meaning, AreInputs, Gives, IsSameBench, IfConflict};

/// What a clock came to.
#[derive(Clone, Copy, Debug, PartialEq, Eq)]
pub enum Tick {
    Done,
    /// An object is used twice in this clock. It is named by its number.
    Conflict(u32),
}

/// A circuit or a program that runs clock by clock.
pub trait Bench {
    ghost State: { Type 0 };

    ghost meaning: { Self → Meaning State };

    /// Runs one clock: from a number for each input it writes the number of each output.
    ///
    /// `Conflict` leaves the bench and `outputs` as they were.
    fn clock(&mut self, inputs: &[u128], outputs: &mut [u128]) -> Tick
        requires inputs { AreInputs (meaning self.old).widths inputs.now }
        requires outputs { length outputs.old ≡ (meaning self.old).outputs }
        ensures gives { Gives (meaning self.old) inputs.now result outputs.new (meaning self.new) }
        ensures conflict { IfConflict result ((meaning self.new ≡ meaning self.old) × (outputs.new ≡ outputs.old)) }
        ensures same { IsSameBench (meaning self.old) (meaning self.new) };
}
