//! Operations on tables: what they make value by value, and what their sweeps leave.
ghost use Rattle.std.specs.Prelude.{◌≤◌, length};
ghost use Rattle.top_down_cases.specs.declared.sweeping.TheConstants.{LEAST_ROOM};

use crate::sweeping::{has_canon_of, reduced};
use bool_tables::Quant;
use case_tables::{choice_of, operator, product_of, quantified_of, restricted_of};
use rec_words::Rec;
use shelf_memory::Bench;
use shelf_model::{FileNo, SortFault};
use std::alloc::{AllocError, Global};
use std::test::Fail;
use top_down_sweep::{Choice, Product, Quantified, Restricted};

/// What an operation means. An operator is given by a number, whose binary digits are its four values.
#[derive(Clone, Copy)]
pub(crate) enum Meant {
    Operator(u32),
    Choice,
    Quantifier(Quant, u32),
    Restriction(u32, bool),
}

impl Meant {
    // The table that it makes of three tables of n variables.
    fn table(self, alloc: Global, n: u32, tables: [&[bool]; 3]) -> Result<Vec<bool>, AllocError> {
        let [first, second, third] = tables;
        match self {
            Meant::Operator(digits) => product_of(alloc, digits, first, second),
            Meant::Choice => choice_of(alloc, first, second, third),
            Meant::Quantifier(kind, level) => quantified_of(alloc, n, kind, level, first),
            Meant::Restriction(level, value) => restricted_of(alloc, n, level, value, first),
        }
    }

    /// How many nodes are left once the arcs of its sweep are reduced. None is answered where that takes too many turns.
    pub(crate) fn reduced(
        self,
        n: u32,
        operands: [FileNo; 3],
        room: &mut [Rec],
        bench: &mut Bench,
    ) -> Result<Option<u64>, SortFault>
        requires levels { n ≤ 65535 }
        requires enough { LEAST_ROOM ≤ length room.old }
    {
        match self {
            Meant::Operator(digits) => {
                let op = operator(digits);
                reduced(Product { op }, n, operands, room, bench)
            }
            Meant::Choice => reduced(Choice, n, operands, room, bench),
            Meant::Quantifier(kind, variable) => {
                reduced(Quantified { kind, variable }, n, operands, room, bench)
            }
            Meant::Restriction(variable, value) => {
                reduced(Restricted { variable, value }, n, operands, room, bench)
            }
        }
    }

    /// Whether its sweep over the files of three tables leaves the canonical file of the table that it makes, with the
    /// count of its nodes.
    pub(crate) fn leaves(
        self,
        alloc: Global,
        n: u32,
        operands: [FileNo; 3],
        tables: [&[bool]; 3],
        room: &mut [Rec],
        bench: &mut Bench,
    ) -> Result<bool, Fail>
        requires few { n ≤ 20 }
        requires enough { LEAST_ROOM ≤ length room.old }
    {
        let wanted = self.table(alloc, n, tables)?;
        let count = self.reduced(n, operands, room, bench)?;
        has_canon_of(alloc, n, wanted.as_slice(), count, bench)
    }
}
