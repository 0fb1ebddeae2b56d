//! The law of tables that are to be made. The function does nothing: what it ensures is the law.
ghost use Rattle.table_work.specs.Works.{GivenIsWork};

use met_tuples::laws::operations_meet_few_tuples;
use top_down_sweep::laws::operations_on_canonical_files_are_tasks;

/// An operation on the canonical files that it is given is a task whose table is that of the step. It meets no more
/// tuples than the step joins, and reads no more than three times the nodes of the operands.
pub fn operations_on_canonical_files_are_work()
    ensures { GivenIsWork }
{
    operations_on_canonical_files_are_tasks();
    operations_meet_few_tuples();
}
