//! What a step is given: a room, and a folder of three tables; and the diagrams that it makes there, beside those of the
//! tables.
use crate::steps::{EMPTY, NUMBER, Task, made_by};
use crate::tables::{Triple, canon_file_of, folder_of};
use bool_tables::Bin;
use case_tables::{choice_of, product_of, quantified_of, restricted_of};
use file_numbers::node_file;
use rec_words::Rec;
use shelf_memory::Bench;
use shelf_model::SortFault;
use std::alloc::{AllocError, Global};
use std::test::Fail;
use step_sweeps::{MadeDiagram, StepOperation};

/// A room, three tables of n variables, and a folder with their canonical files.
#[derive(Drop)]
pub(crate) struct Given {
    pub(crate) alloc: Global,
    pub(crate) room: Vec<Rec>,
    pub(crate) n: u32,
    pub(crate) tables: Triple,
    pub(crate) bench: Bench,
}

impl Given {
    /// A room of so many records, with no tables yet and an empty folder.
    pub(crate) fn room_of(alloc: Global, records: usize) -> Result<Given, Fail> {
        let room = vec![in alloc; EMPTY; records]?;
        Ok(Given {
            alloc,
            room,
            n: 0,
            tables: Triple::none(alloc),
            bench: Bench::empty(alloc),
        })
    }

    /// From here on the room has so many records.
    pub(crate) fn take_room(&mut self, records: usize) -> Result<(), Fail> {
        self.room = vec![in self.alloc; EMPTY; records]?;
        Ok(())
    }

    /// From here on the tables are these, and the folder has their files and no others.
    pub(crate) fn take(&mut self, n: u32, tables: Triple) -> Result<(), Fail> {
        self.bench = folder_of(self.alloc, n, &tables)?;
        self.tables = tables;
        self.n = n;
        Ok(())
    }

    /// So they are those of a seed.
    pub(crate) fn take_seed(&mut self, n: u32, seed: u64) -> Result<(), Fail> {
        self.take(n, Triple::of_seed(self.alloc, n, seed)?)
    }

    /// So each is the same one, which depends on each variable.
    pub(crate) fn take_one(&mut self, n: u32, seed: u64) -> Result<(), Fail> {
        self.take(n, Triple::of_one(self.alloc, n, seed)?)
    }

    /// The conjunction of the first two tables, the first, and their disjunction.
    pub(crate) fn ascending(&self) -> Result<Triple, AllocError> {
        self.tables.ascending(self.alloc)
    }

    // The table that an operation makes of those whose files it is on.
    fn wanted(&self, task: Task) -> Result<Vec<bool>, AllocError> {
        let first = self.tables.table(task.operands.first.step);
        let second = self.tables.table(task.operands.second.step);
        let third = self.tables.table(task.operands.third.step);
        match task.operation {
            StepOperation::Operator(op) => product_of(self.alloc, digits_of(op), first, second),
            StepOperation::Choice => choice_of(self.alloc, first, second, third),
            StepOperation::Quantifier { kind, level } => {
                quantified_of(self.alloc, self.n, kind, level, first)
            }
            StepOperation::Restriction { level, value } => {
                restricted_of(self.alloc, self.n, level, value, first)
            }
        }
    }

    /// Whether the file that a step left is the canonical one of the table that its operation makes, with the count of
    /// its nodes.
    pub(crate) fn is_made(&self, task: Task, made: MadeDiagram) -> Result<bool, Fail> {
        let wanted = self.wanted(task)?;
        let bytes = canon_file_of(self.alloc, self.n, wanted.as_slice())?;
        let nodes = (bytes.len() as u64 / 24).saturating_sub(1);
        Ok(made.nodes == nodes && self.bench.file(node_file(NUMBER)) == bytes.as_slice())
    }

    /// Makes a diagram.
    pub(crate) fn make(&mut self, task: Task) -> Result<MadeDiagram, SortFault> {
        made_by(task, self.n, self.room.as_mut_slice(), &mut self.bench)
    }

    /// Whether that leaves the right file.
    pub(crate) fn makes(&mut self, task: Task) -> Result<bool, Fail> {
        match self.make(task) {
            Ok(made) => self.is_made(task, made),
            Err(_) => Ok(false),
        }
    }

    /// What is said of the right file that is made; none where it isn't made.
    pub(crate) fn make_right(&mut self, task: Task) -> Result<Option<MadeDiagram>, Fail> {
        match self.make(task) {
            Ok(made) => Ok(if self.is_made(task, made)? {
                Some(made)
            } else {
                None
            }),
            Err(_) => Ok(None),
        }
    }
}

// The number whose binary digits are the values of an operator.
fn digits_of(op: Bin) -> u32 {
    let low = u32::from(op.v00) | u32::from(op.v01) << 1;
    low | u32::from(op.v10) << 2 | u32::from(op.v11) << 3
}
