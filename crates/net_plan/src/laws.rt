//! Laws of the values of signals and of their steps, each the contract of a function that does nothing.

ghost use Rattle.std.specs.Prelude.{◌≡◌, ◌<◌, ℕ, Bool, List, length, slice_index};
ghost use Rattle.blif_reader.specs.Netlist.{Net, IsNet};
ghost use Rattle.net_plan.specs.Plan.{plan_steps, plan_made};
ghost use Rattle.net_plan.specs.Values.{HasValue};
ghost use Rattle.net_plan.specs.WellFormed.{StaysWellFormed};

/// A signal has at most one value.
pub fn values_are_unique()
    ensures { (net : Net) (inputs : ℕ → Bool) (s : ℕ) (v w : Bool) → HasValue net inputs s v → HasValue net inputs s w →
        v ≡ w }
{}

/// Each signal of a netlist has a value.
pub fn values_exist()
    ensures { (net : Net) (inputs : ℕ → Bool) (s : ℕ) → IsNet net → s < length net.names →
        (v : Bool) × HasValue net inputs s v }
{}

/// The steps of a netlist's signals go on with any well-formed plan.
pub fn steps_go_on()
    ensures { (net : Net) (levels wanted : List ℕ) (first : ℕ) → IsNet net → length levels ≡ net.inputs
        → ((i : ℕ) → i < length wanted → slice_index wanted i < length net.names)
        → StaysWellFormed levels wanted first (plan_steps net levels wanted first) (plan_made net levels wanted first) }
{}
