ghost use Rattle.std.specs.Prelude.{◌≡◌, ℕ, List, length, Bool};
ghost use Rattle.hc_net.specs.Run.{State, Settles, settled};
ghost use Rattle.hc_net.specs.Valid.{IsValid};
ghost use Rattle.hc_net.specs.declared.net.RawNet.{RawNet};

/// Of a valid netlist exactly one valuation settles, for each state and all inputs.
pub fn settles_once()
    ensures settles { (raw : RawNet) (state : State) (inputs : List ℕ) → IsValid raw
        → length state.flops ≡ length raw.flops → Settles raw state inputs (settled raw state inputs) }
    ensures alone { (raw : RawNet) (state : State) (inputs : List ℕ) (v : List Bool) → IsValid raw
        → length state.flops ≡ length raw.flops → Settles raw state inputs v → v ≡ settled raw state inputs }
{}
