ghost use Rattle.std.specs.Prelude.{◌≡◌, ◌≢◌, ℕ, suc, List, Some};
ghost use Rattle.hc_stim.specs.Bench.{Conflict, Done, state_after};
ghost use Rattle.hc_net.specs.Run.{State, Trace, first_state, state_at, outputs_at};
ghost use Rattle.hc_net.specs.declared.net.RawNet.{RawNet};
ghost use Rattle.hc_netsim.specs.Running.{step};

/// The clocks of a bench of a netlist are those of the netlist: from its first state, after any number of clocks it
/// has the state of the netlist at that edge, the words of its RAMs among it, and its next clock gives the outputs of the
/// netlist in that clock. No clock comes to a conflict.
pub fn runs_as_netlist()
    ensures state { (raw : RawNet) (trace : Trace) (t : ℕ)
        → state_after (step raw) (first_state raw) trace t ≡ Some (state_at raw trace t) }
    ensures outputs { (raw : RawNet) (trace : Trace) (t : ℕ)
        → step raw (state_at raw trace t) (trace t) ≡ Done (outputs_at raw trace t) (state_at raw trace (suc t)) }
    ensures never { (raw : RawNet) (state : State) (inputs : List ℕ) (object : ℕ) → step raw state inputs ≢ Conflict object }
{}
