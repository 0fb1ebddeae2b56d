//! The laws of canonical forms. Each function does nothing: what it ensures is the law.
ghost use Rattle.std.specs.Prelude.{◌≡◌, ℕ, ◌^◌, ◌<◌, ◌≤◌, Bool, List, length};
ghost use Rattle.canon_file.specs.Laws.{HasForm, IsUnique, KeepsRules, Stands, Walks, PiecesAreParts, AreRows};
ghost use Rattle.canon_file.specs.Constants.{HasNoNode};
ghost use Rattle.canon_file.specs.Variables.{IsOneNode};

/// For one number of variables, canonical bytes are equal exactly where the tables are.
pub fn bytes_are_unique()
    ensures { (n : ℕ) → IsUnique n }
{}

/// The canonical nodes, followed from the root, give the table back.
pub fn nodes_stand_for_the_table()
    ensures table { (n : ℕ) → Stands n }
    ensures walks { (n : ℕ) → Walks n }
{}

/// The canonical nodes and root keep the rules of node files.
pub fn nodes_keep_the_rules()
    ensures { (n : ℕ) → KeepsRules n }
{}

/// Tables of few variables have a canonical form.
pub fn small_tables_have_a_form()
    ensures { (n : ℕ) → n ≤ 47 → (t : List Bool) → length t ≡ 2 ^ n → HasForm n t }
{}

/// The pieces of a level, which halving gives, are the table's equal parts in order.
pub fn pieces_are_parts()
    ensures { (i h : ℕ) → PiecesAreParts i h }
{}

/// The rows of a level are the pairs of its pieces that split, ascending, each once.
pub fn rows_are_distinct_pairs()
    ensures { (f : List Bool → ℕ) (h : ℕ) (ps : List (List Bool)) → AreRows f h ps }
{}

/// A variable's diagram is one node, whichever variable it is and of however many.
pub fn variables_are_one_node()
    ensures { (n level : ℕ) → level < n → IsOneNode n level }
{}

/// A constant's diagram has no node.
pub fn constants_have_no_node()
    ensures { (n : ℕ) (value : Bool) → HasNoNode n value }
{}
