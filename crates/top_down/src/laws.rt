//! The laws of sweeps from the root to the leaves. Each function does nothing: what it ensures is the law.
ghost use Rattle.std.specs.Prelude.{◌≤◌, ℕ};
ghost use Rattle.rec_words.specs.Words.{most_variables};
ghost use Rattle.top_down.specs.Tuples.{Targets};
ghost use Rattle.top_down.specs.Rules.{Rule, IsRule};
ghost use Rattle.top_down.specs.Verdicts.{FirstAwaits, KnownAwaits, NewAwaits, RefutesAtZero, HoldsAtLast, ImplicationAnswers};
ghost use Rattle.top_down.specs.Laws.{FirstGrows, KnownGrows, NewGrows, AsksInAnyOrder, NumbersAreFull, OpenStands, ClosedStands, ProductStands, ChoiceStands, QuantifyStands, RestrictStands};

/// What a sweep has made grows by answering asks: the first is that of the root, and each further one is
/// answered by the newest identifier, where it has the ask's tuple, or by the next. The asks may stand in
/// any order, and the numbers of a level have no gap.
pub fn answering_an_ask_keeps_what_is_made()
    ensures first { (n : ℕ) (rule : Rule) (targets : Targets) → IsRule n rule targets → FirstGrows n rule targets }
    ensures known { (n : ℕ) (rule : Rule) (targets : Targets) → IsRule n rule targets → KnownGrows n rule targets }
    ensures renewed { (n : ℕ) (rule : Rule) (targets : Targets) → IsRule n rule targets → NewGrows n rule targets }
    ensures any_order { (n : ℕ) (rule : Rule) (targets : Targets) → IsRule n rule targets →
        AsksInAnyOrder n rule targets }
    ensures full { NumbersAreFull }
{}

/// What is made, completed by what stands for the open asks, stands for the table of the roots, and with no
/// ask open it is a diagram of that table.
pub fn what_is_made_stands_for_the_roots()
    ensures opened { (n : ℕ) (rule : Rule) (targets : Targets) → n ≤ most_variables → IsRule n rule targets →
        OpenStands n rule targets }
    ensures closed { (n : ℕ) (rule : Rule) (targets : Targets) → n ≤ most_variables → IsRule n rule targets →
        ClosedStands n rule targets }
{}

/// An operation's rule makes the operation's table of two canonical diagrams, pair of pointers by pair of
/// pointers. Where it says a constant of the roots, that table is constant.
pub fn pairs_make_a_diagram()
    ensures { (n : ℕ) → ProductStands n }
{}

/// So does the rule of the choice between two diagrams by a third.
pub fn triples_make_a_diagram()
    ensures { (n : ℕ) → ChoiceStands n }
{}

/// So does a quantifier's rule of one diagram: on its variable's level a node's two pointers become one
/// tuple, and below that level the two are quantified value by value.
pub fn quantified_pairs_make_a_diagram()
    ensures { (n : ℕ) → QuantifyStands n }
{}

/// So does a restriction's rule of one diagram.
pub fn restricted_pointers_make_a_diagram()
    ensures { (n : ℕ) → RestrictStands n }
{}

/// A sweep that makes no arcs tells whether the table of the roots is 1 at each place: it is exactly where the
/// function of each open ask is. So a side that ends in 0 refutes it, and it holds once nothing is asked for.
pub fn open_asks_decide_a_table_of_ones()
    ensures first { (n : ℕ) (rule : Rule) (targets : Targets) → IsRule n rule targets → FirstAwaits n rule targets }
    ensures known { (n : ℕ) (rule : Rule) (targets : Targets) → IsRule n rule targets → KnownAwaits n rule targets }
    ensures renewed { (n : ℕ) (rule : Rule) (targets : Targets) → IsRule n rule targets → NewAwaits n rule targets }
    ensures refuted { (n : ℕ) (rule : Rule) (targets : Targets) → IsRule n rule targets → RefutesAtZero n rule targets }
    ensures holds { (n : ℕ) (rule : Rule) (targets : Targets) → IsRule n rule targets → HoldsAtLast n rule targets }
{}

/// One table is nowhere above another exactly where that of the implication is 1 at each place.
pub fn implications_compare_tables()
    ensures { (n : ℕ) → ImplicationAnswers n }
{}
