ghost use Rattle.std.specs.Prelude.{◌≡◌, [], ◌∷◌, length, Some};
ghost use Rattle.hc_stim.specs.Bench.{AreInputs, IsSameBench, IfDone, state_after};
ghost use Rattle.hc_circuit_tests.specs.Sum.{sum_step};

use hc_stim::{Bench, Tick};
use std::test::Fail;

/// A sum of bytes, which is its output. A byte that is 255 is a conflict on object 7.
#[derive(Drop)]
struct Sum(u8);

impl Bench for Sum {
    ghost use Rattle.std.specs.Prelude.{ℕ};

    ghost State = { ℕ };

    ghost meaning = { λ s. record { widths = 8 ∷ []; outputs = 1; state = s.0; step = sum_step } };

    fn clock(&mut self, inputs: &[u128], outputs: &mut [u128]) -> Tick {
        if inputs[0] == 255 {
            return Tick::Conflict(7);
        }
        self.0 = self.0.wrapping_add(inputs[0] as u8);
        outputs[0] = self.0 as u128;
        Tick::Done
    }
}

/// Runs so many clocks with the same inputs, up to the first conflict.
fn repeat<B: Bench>(bench: &mut B, inputs: &[u128], outputs: &mut [u128], clocks: u32) -> Tick
    requires inputs { AreInputs (B.meaning bench.old).widths inputs.now }
    requires outputs { length outputs.old ≡ (B.meaning bench.old).outputs }
    ensures same { IsSameBench (B.meaning bench.old) (B.meaning bench.new) }
    ensures done { IfDone result (state_after (B.meaning bench.old).step (B.meaning bench.old).state (λ t. inputs.now) clocks
        ≡ Some (B.meaning bench.new).state) }
{
    for _clock in 0..clocks {
        match bench.clock(inputs, outputs) {
            Tick::Done => {}
            Tick::Conflict(object) => return Tick::Conflict(object),
        }
    }
    Tick::Done
}

#[test]
fn runs_clocks_to_a_conflict(rt: HostRuntime) -> Result<(), Fail> {
    let mut sum = Sum(1);
    let mut outputs = [0; 1];
    assert_eq!(rt; repeat(&mut sum, &[20], &mut outputs, 3), Tick::Done);
    assert_eq!(rt; outputs[0], 61);
    assert_eq!(rt;
        repeat(&mut sum, &[255], &mut outputs, 3),
        Tick::Conflict(7)
    );
    assert_eq!(rt; outputs[0], 61);
    Ok(())
}
