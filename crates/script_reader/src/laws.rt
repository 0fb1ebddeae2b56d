//! Laws of scripts and their plans, each the contract of a function that does nothing.
ghost use Rattle.std.specs.Prelude.{◌≡◌, ◌<◌, ◌≤◌, ℕ, List, [], Option, IfSome, Some, length, Ok};
ghost use Rattle.std.specs.List.{slice_index_or};
ghost use Rattle.blif_reader.specs.Netlist.{Net, IsNet};
ghost use Rattle.bool_tables.specs.Plans.{IsWellFormed};
ghost use Rattle.script_reader.specs.Lines.{AreLines};
ghost use Rattle.script_reader.specs.Names.{place_of};
ghost use Rattle.script_reader.specs.Nets.{inputs_of};
ghost use Rattle.script_reader.specs.Reads.{Reads, Refuses};
ghost use Rattle.script_reader.specs.Script.{read};
ghost use Rattle.script_reader.specs.Signals.{MakesSignals, variables_of};
ghost use Rattle.script_reader.specs.declared.fault.ScriptFault.{ScriptFault};
ghost use Rattle.script_reader.specs.declared.plan.Plan.{Plan};

/// The plan of a script is well formed over the script's text, and its said lines go with its steps, whichever
/// words are known and whichever netlist is given.
pub fn plans_are_well_formed()
    ensures steps { (known : List (List ℕ)) → (netlist : Option Net) → (text : List ℕ) → (plan : Plan)
        → IfSome netlist IsNet → read known netlist text ≡ Ok plan
        → IsWellFormed plan.n text plan.steps }
    ensures lines { (known : List (List ℕ)) → (netlist : Option Net) → (text : List ℕ) → (plan : Plan)
        → IfSome netlist IsNet → read known netlist text ≡ Ok plan
        → AreLines plan.steps plan.lines }
{}

/// Whether a netlist is given or not: a text asks for one plan at most, has at most 1,048,576 bytes where it asks for
/// one, and isn't refused then. That plan can be run: it is well formed over the text, and its lines go with its steps.
pub fn one_plan()
    ensures one { (netlist : Option Net) (text : List ℕ) (a b : Plan) → Reads netlist text a → Reads netlist text b
        → a ≡ b }
    ensures unrefused { (netlist : Option Net) (text : List ℕ) (plan : Plan) (fault : ScriptFault)
        → Reads netlist text plan → ¬ (Refuses netlist text fault) }
    ensures short { (netlist : Option Net) (text : List ℕ) (plan : Plan) → Reads netlist text plan
        → length text ≤ 1048576 }
    ensures well_formed { (netlist : Option Net) (text : List ℕ) (plan : Plan) → IfSome netlist IsNet
        → Reads netlist text plan → IsWellFormed plan.n text plan.steps }
    ensures lines { (netlist : Option Net) (text : List ℕ) (plan : Plan) → IfSome netlist IsNet
        → Reads netlist text plan → AreLines plan.steps plan.lines }
{}

/// The plan of a script over a netlist makes the signals that its lines ask for: each pair of a name and a signal has
/// a said line, which comes after the last step of its line and shows a step with that name, whose table is that of
/// the signal. The level of an input is the place of the variable with its name; where the variables are the inputs,
/// that is its own place among them.
pub fn net_lines_make_their_signals()
    ensures made { (net : Net) (text : List ℕ) (plan : Plan) → IsNet net → Reads (Some net) text plan
        → MakesSignals net text plan }
    ensures variables { (net : Net) (text : List ℕ) (plan : Plan) → Reads (Some net) text plan
        → plan.n ≡ length (variables_of net text) }
    ensures own { (net : Net) (i : ℕ) → IsNet net → i < net.inputs
        → place_of (inputs_of net) (slice_index_or net.names i []) ≡ Some i }
{}
