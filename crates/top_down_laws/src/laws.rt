//! The laws of what remains of a sweep from the root to the leaves. Each function does nothing:
//! what it ensures is the law.
ghost use Rattle.std.specs.Prelude.{ℕ};
ghost use Rattle.top_down_laws.specs.Laws.{ForEachTask, ConstantEnds, RootIsAsked, WaitInAnyOrder, WantedIsRead, AskIsReadOn, KnownIsAnswered, NewIsNumbered, AsksForOne, NothingWaits, WrittenStands, RootStands, AsksAreSound, EndIsValue};
ghost use Rattle.top_down_laws.specs.Operations.{ProductIsTask, ChoiceIsTask, QuantifyIsTask, RestrictIsTask};
ghost use Rattle.top_down_laws.specs.Turns.{CountBegins, CountInAnyOrder, ReadIsCounted, ReadOnIsCounted, KnownIsCounted, NewIsCounted, TurnsAreFew};

/// An operation, a choice, a quantifier or a restriction on canonical diagrams is the task of its
/// table.
pub fn operations_on_canonical_diagrams_are_tasks()
    ensures product { (n : ℕ) → ProductIsTask n }
    ensures choice { (n : ℕ) → ChoiceIsTask n }
    ensures quantifier { (n : ℕ) → QuantifyIsTask n }
    ensures restriction { (n : ℕ) → RestrictIsTask n }
{}

/// Where the rule says a constant of the roots, that truth value is a diagram of the table.
/// Otherwise what remains is the ask for the tuple that the rule says of them.
pub fn a_sweep_begins_with_its_root()
    ensures constant { ForEachTask ConstantEnds }
    ensures asked { ForEachTask RootIsAsked }
{}

/// The asks that remain may wait in any order.
pub fn asks_wait_in_any_order()
    ensures { ForEachTask WaitInAnyOrder }
{}

/// The node that the first ask wants of a diagram is still to be read, and none that is read before
/// it lies behind it. What remains stays when one node of that diagram is read.
pub fn a_wanted_node_is_read()
    ensures { ForEachTask WantedIsRead }
{}

/// Where the first ask wants none, and its tuple has another node of the level, it is taken and
/// asked again for that node, with the pointers of the one that was read.
pub fn an_ask_is_read_on()
    ensures { ForEachTask AskIsReadOn }
{}

/// Where the first ask is for the tuple that was numbered last, it is taken and answered by that
/// number: the arc from its source is put behind the others.
pub fn a_known_tuple_is_answered()
    ensures { ForEachTask KnownIsAnswered }
{}

/// Where all nodes of the first ask's tuple were read and the tuple was not numbered last, the ask
/// is taken and answered by the next number of its level, or its number 0: an arc to it is put from
/// the ask's source, where it has one, and each of the tuple's two sides gets an arc to a truth
/// value or is asked for.
pub fn a_new_tuple_is_numbered()
    ensures { ForEachTask NewIsNumbered }
{}

/// An ask that waits is for exactly one tuple of the diagrams.
pub fn an_ask_is_for_one_tuple()
    ensures { ForEachTask AsksForOne }
{}

/// Where nothing waits, the arcs that were written are a diagram of the table, in the order of
/// their files, and two for each tuple that is met.
pub fn a_sweep_ends_with_a_diagram()
    ensures { ForEachTask NothingWaits }
{}

/// Before the root has its number, nothing is written, and the one ask that waits is for a tuple
/// whose function is the table. From then on, what is written, completed by what stands for the
/// functions of the asks that wait, stands for the table.
pub fn what_is_written_stands_for_the_table()
    ensures root { ForEachTask RootStands }
    ensures written { ForEachTask WrittenStands }
{}

/// Where an arc that was put leads to a truth value, that is a value of the table.
pub fn an_arc_leads_to_a_value_of_the_table()
    ensures { ForEachTask EndIsValue }
{}

/// Each ask that waits passes the tests of a sweep: its key is a node that a member is, all members
/// stand from it, the asker lies above it, and it is not the ask that was taken last.
pub fn asks_that_wait_are_sound()
    ensures { ForEachTask AsksAreSound }
{}

/// The turns of a sweep are counted by what they read, ask again, answer and number. With what is
/// still owed they are no more than the nodes, six for each tuple that is met, and three.
pub fn turns_are_counted()
    ensures begins { CountBegins }
    ensures any_order { CountInAnyOrder }
    ensures read { ReadIsCounted }
    ensures read_on { ForEachTask ReadOnIsCounted }
    ensures known { ForEachTask KnownIsCounted }
    ensures numbered { ForEachTask NewIsCounted }
    ensures few { ForEachTask TurnsAreFew }
{}
