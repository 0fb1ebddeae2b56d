//! The laws of tasks. Each function does nothing: what it ensures is the law.
ghost use Rattle.top_down_sweep.specs.Tasks.{ProductOnFiles, ChoiceOnFiles, QuantifyOnFiles, RestrictOnFiles, MadeIsDiagram};

use node_file::laws::canonical_files_are_read;
use top_down_laws::laws::operations_on_canonical_diagrams_are_tasks;

/// An operation, a choice, a quantifier or a restriction on canonical files is a task, whose table is
/// that of the step.
pub fn operations_on_canonical_files_are_tasks()
    ensures product { ProductOnFiles }
    ensures choice { ChoiceOnFiles }
    ensures quantifier { QuantifyOnFiles }
    ensures restriction { RestrictOnFiles }
{
    canonical_files_are_read();
    operations_on_canonical_diagrams_are_tasks();
}

/// What was made of a task is the two arc files of a diagram of its table, as a reduction takes them.
pub fn what_was_made_is_a_diagram()
    ensures { MadeIsDiagram }
{}
