//! What a checkpoint of a sweep names, and whether it keeps the rules.
use crate::rules::has_queue;
use crate::{Files, Operation, TopDownSweep};
use saved_words::value_of;
use sweep_core::Checkpoint;
use tuple_asks::SavedMachine;

/// What a checkpoint of a sweep names: the operation, of how many variables the diagrams are, and the files.
#[derive(Clone, Copy, Debug, PartialEq, Eq)]
pub struct Named<O> {
    pub operation: O,
    pub variables: u32,
    pub files: Files,
}

impl<'r, O: Operation> TopDownSweep<'r, O> {
    ghost use Rattle.std.specs.Prelude.{◌↔◌, IsTrue, IfSome, IfNone};
    ghost use Rattle.top_down_sweep.specs.Resumes.{Fits, NamesAll};
    ghost use Rattle.top_down_sweep.specs.Sweeps.{SweepTask};

    /// What a checkpoint says is made, if its words are those of a sweep with such an operation. It takes no memory.
    pub fn named(point: &Checkpoint) -> Option<Named<O>>
        ensures found { IfSome result (λ t. NamesAll O.Carried point.now t.operation
            (record { files = t.files; variables = t.variables })) }
        ensures none { IfNone result ((operation : O) (task : SweepTask) → ¬ NamesAll O.Carried point.now operation task) }
    {
        match value_of::<(SavedMachine, O)>(&point.carry) {
            Some((saved, operation)) => Some(Named {
                operation,
                variables: saved.variables,
                files: Files {
                    first: saved.first.file,
                    second: saved.second.file,
                    third: saved.third.file,
                    inner: saved.arcs.inner,
                    ends: saved.arcs.ends,
                },
            }),
            None => None,
        }
    }

    /// Whether a checkpoint keeps the rules of a sweep's with such an operation. It takes no memory.
    pub fn fits(point: &Checkpoint) -> bool
        ensures { IsTrue result ↔ Fits O.Carried point.now }
    {
        match value_of::<(SavedMachine, O)>(&point.carry) {
            Some((saved, _operation)) => has_queue(point) && saved.keeps_rules(point),
            None => false,
        }
    }
}
