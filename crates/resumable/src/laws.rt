//! The laws of resumable images, each the contract of a function that does nothing.
ghost use Rattle.std.specs.Prelude.{◌≡◌, ◌⊎◌, ℕ, ◌+◌, ◌*◌, ◌<◌, ◌≤◌, Bool, List};
ghost use Rattle.bool_tables.specs.declared.steps.Bin.{Bin};
ghost use Rattle.bool_tables.specs.declared.steps.Planned.{Planned};
ghost use Rattle.bool_tables.specs.declared.steps.Quant.{Quant};
ghost use Rattle.bool_tables.specs.declared.steps.Step.TheVariants.{Pair, Ite, Quantify, Restrict, Same, Leq, Eval};
ghost use Rattle.shelf_model.specs.declared.file_no.FileNo.{FileNo};
ghost use Rattle.canon_file.specs.Canon.{canon_bytes};
ghost use Rattle.canon_file.specs.Laws.{HasForm};
ghost use Rattle.file_numbers.specs.Files.{node_file};
ghost use Rattle.sweep_checkpoint.specs.Going.{GoesOn};
ghost use Rattle.copy_sweep.specs.Resumes.{copy_saving};
ghost use Rattle.restrict_eval.specs.SameResumes.{same_saving};
ghost use Rattle.restrict_eval.specs.EvalResumes.{eval_saving};
ghost use Rattle.product_sweep.specs.LeqSaving.{leq_saving};
ghost use Rattle.reduce_sweep.specs.Remaining.{Diagram};
ghost use Rattle.reduce_sweep.specs.Resumes.{reduce_saving};
ghost use Rattle.reduce_sweep.specs.Sweeps as reduce;
ghost use Rattle.step_work.specs.Plans.{step_at, table_at, work_at};
ghost use Rattle.table_work.specs.Given.{Tables};
ghost use Rattle.table_work.specs.Tables.{work_of};
ghost use Rattle.top_down_sweep.specs.declared.beginning.OperandFiles.{OperandFiles};
ghost use Rattle.sweep_operations.specs.declared.steps.StepOperation.{StepOperation};
ghost use Rattle.sweep_operations.specs.declared.steps.StepOperation.TheVariants as operations;
ghost use Rattle.resumable.specs.Answers.{comparison_of, two_tables, evaluation_of, one_table, two_files};
ghost use Rattle.resumable.specs.Diagrams.{made_by, tuples_by, work_by, arcs_saving, arcs_of, copy_of, DiagramGoesOn};
ghost use Rattle.resumable.specs.Kinds.{files_of, tables_of};
ghost use Rattle.resumable.specs.Resumable.{NoneBehind, HasNone, ShowsTheSame, IsResumable};

/// An image in which neither the step nor one behind it has a gated checkpoint is resumable, whatever the plan.
pub fn without_checkpoints_is_resumable()
    ensures { (n : ℕ) (text : List ℕ) (steps : List Planned) (j : ℕ) (r : FileNo → List ℕ) →
        HasNone steps j r → IsResumable n text steps j r }
{}

/// An image that shows the same as a resumable one, in the gates, the last checkpoint and what that rests on, is
/// resumable.
pub fn the_same_is_resumable()
    ensures { (n : ℕ) (text : List ℕ) (steps : List Planned) (j : ℕ) (old new : FileNo → List ℕ) →
        ShowsTheSame steps j old new → IsResumable n text steps j old →
        IsResumable n text steps j new }
{}

/// An image is resumable in which the step goes on from a checkpoint, and none behind it has one: a comparison, an
/// evaluation or an implication from one of its only sweep, within its work, and a step that makes a diagram in any of
/// its ways.
pub fn what_goes_on_is_resumable()
    ensures comparison { (n : ℕ) (text : List ℕ) (steps : List Planned) (j left right turns : ℕ)
        (r : FileNo → List ℕ) → step_at steps j ≡ Same left right → NoneBehind steps j r →
        GoesOn same_saving j 0 (comparison_of n (node_file left) (node_file right) j)
        (two_tables n (table_at n steps left) (table_at n steps right)) turns r →
        turns < work_at n steps j → IsResumable n text steps j r }
    ensures evaluation { (n : ℕ) (text : List ℕ) (steps : List Planned) (j operand at turns : ℕ)
        (r : FileNo → List ℕ) → step_at steps j ≡ Eval operand at → NoneBehind steps j r →
        GoesOn eval_saving j 0 (evaluation_of n (node_file operand) text at j)
        (one_table n (table_at n steps operand)) turns r →
        turns < work_at n steps j → IsResumable n text steps j r }
    ensures implication { (n : ℕ) (text : List ℕ) (steps : List Planned) (j left right turns : ℕ)
        (r : FileNo → List ℕ) → step_at steps j ≡ Leq left right → NoneBehind steps j r →
        GoesOn leq_saving j 0 (arcs_of n (two_files (node_file left) (node_file right)) j)
        (record { n = n; left = table_at n steps left; right = table_at n steps right }) turns r →
        turns < work_at n steps j → IsResumable n text steps j r }

    // a step that makes a diagram
    ensures operator { (n : ℕ) (text : List ℕ) (steps : List Planned) (j left right : ℕ) (op : Bin)
        (r : FileNo → List ℕ) → step_at steps j ≡ Pair op left right → NoneBehind steps j r →
        DiagramGoesOn (operations.Operator op) n (files_of left right right) j
        (tables_of n steps left right right) r → IsResumable n text steps j r }
    ensures choice { (n : ℕ) (text : List ℕ) (steps : List Planned) (j test if_one if_zero : ℕ)
        (r : FileNo → List ℕ) → step_at steps j ≡ Ite test if_one if_zero → NoneBehind steps j r →
        DiagramGoesOn operations.Choice n (files_of test if_one if_zero) j
        (tables_of n steps test if_one if_zero) r → IsResumable n text steps j r }
    ensures quantifier { (n : ℕ) (text : List ℕ) (steps : List Planned) (j operand level : ℕ) (kind : Quant)
        (r : FileNo → List ℕ) → step_at steps j ≡ Quantify kind operand level → NoneBehind steps j r →
        DiagramGoesOn (operations.Quantifier kind level) n (files_of operand operand operand) j
        (tables_of n steps operand operand operand) r → IsResumable n text steps j r }
    ensures restriction { (n : ℕ) (text : List ℕ) (steps : List Planned) (j operand level : ℕ) (value : Bool)
        (r : FileNo → List ℕ) → step_at steps j ≡ Restrict operand level value → NoneBehind steps j r →
        DiagramGoesOn (operations.Restriction level value) n (files_of operand operand operand) j
        (tables_of n steps operand operand operand) r → IsResumable n text steps j r }
{}

/// A step that makes a diagram goes on where a sweep of it does, within the step's work: the copy of an operand with
/// the bytes of the step's table, the sweep that makes its arcs, with the turns of a reduction left, or the reduction
/// of its arcs, as the second sweep.
pub fn a_sweep_of_a_diagram_goes_on()
    ensures copy { (operation : StepOperation) (n : ℕ) (operands : OperandFiles) (number turns : ℕ) (g : Tables)
        (from : FileNo) (r : FileNo → List ℕ) → (from ≡ operands.first) ⊎ (from ≡ operands.second) →
        HasForm n (made_by operation n g) →
        GoesOn copy_saving number 0 (copy_of from number (canon_bytes n (made_by operation n g)))
        (canon_bytes n (made_by operation n g)) turns r →
        turns < work_by operation n g → DiagramGoesOn operation n operands number g r }
    ensures arcs { (operation : StepOperation) (n : ℕ) (operands : OperandFiles) (number turns : ℕ) (g : Tables)
        (r : FileNo → List ℕ) →
        GoesOn arcs_saving number 0 (arcs_of n operands number) (work_of operation n g) turns r →
        turns + (10 * tuples_by operation n g + 10) ≤ work_by operation n g →
        DiagramGoesOn operation n operands number g r }
    ensures reduction { (operation : StepOperation) (n : ℕ) (operands : OperandFiles) (number turns : ℕ)
        (g : Tables) (task : reduce.Task) (diagram : Diagram) (r : FileNo → List ℕ) → task.out ≡ node_file number →
        task.variables ≡ n → task.inner.step ≡ number → task.ends.step ≡ number →
        diagram.table ≡ made_by operation n g → HasForm n (made_by operation n g) →
        GoesOn reduce_saving number 1 task diagram turns r →
        turns < work_by operation n g → DiagramGoesOn operation n operands number g r }
{}

/// The work of an operation on the tables of a step's operands is the step's.
pub fn the_work_is_the_steps()
    ensures operator { (n : ℕ) (steps : List Planned) (j left right : ℕ) (op : Bin) →
        step_at steps j ≡ Pair op left right →
        work_by (operations.Operator op) n (tables_of n steps left right right) ≡ work_at n steps j }
    ensures choice { (n : ℕ) (steps : List Planned) (j test if_one if_zero : ℕ) →
        step_at steps j ≡ Ite test if_one if_zero →
        work_by operations.Choice n (tables_of n steps test if_one if_zero) ≡ work_at n steps j }
    ensures quantifier { (n : ℕ) (steps : List Planned) (j operand level : ℕ) (kind : Quant) →
        step_at steps j ≡ Quantify kind operand level →
        work_by (operations.Quantifier kind level) n (tables_of n steps operand operand operand) ≡ work_at n steps j }
    ensures restriction { (n : ℕ) (steps : List Planned) (j operand level : ℕ) (value : Bool) →
        step_at steps j ≡ Restrict operand level value →
        work_by (operations.Restriction level value) n (tables_of n steps operand operand operand)
        ≡ work_at n steps j }
{}
