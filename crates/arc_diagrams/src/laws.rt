//! The laws of sets of arcs. Each function does nothing: what it ensures is the law.
ghost use Rattle.std.specs.Prelude.{ℕ};
ghost use Rattle.arc_diagrams.specs.Laws.{StandsForOne, CanonIsDiagram, ConstantIsDiagram, Reduces, FindsFinal, BeginsReduction, EndsReduction};

/// A complete set of arcs stands for exactly one table: at each place, the sides that the place's
/// digits name lead from the root to the table's value there.
pub fn arcs_stand_for_one_table()
    ensures { (n : ℕ) → StandsForOne n }
{}

/// The canonical nodes of a table, two arcs each, are a diagram of it, with the canonical root. A
/// constant table has the diagram of no arcs whose root is its truth value.
pub fn canonical_nodes_are_a_diagram()
    ensures nodes { (n : ℕ) → CanonIsDiagram n }
    ensures constant { (n : ℕ) → ConstantIsDiagram n }
{}

/// Reducing a complete set of arcs level by level gives the canonical form of the table that it stands
/// for: its nodes in their order, and its root.
pub fn reducing_gives_the_canonical_form()
    ensures { (n : ℕ) → Reduces n }
{}

/// The final pointer of a source is found from those of its two targets, which lie deeper: it is the
/// node of its pair among the rows of its level, or the one pointer that its pair has twice.
pub fn final_pointers_are_found_level_by_level()
    ensures { (n : ℕ) → FindsFinal n }
{}

/// What remains of a reduction is everything at first. When nothing is left of it, its nodes and its
/// root are the canonical ones.
pub fn what_remains_leads_to_the_canonical_form()
    ensures begins { (n : ℕ) → BeginsReduction n }
    ensures ends { (n : ℕ) → EndsReduction n }
{}
