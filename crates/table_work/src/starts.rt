//! The starts of the sweeps that have one operation each.
ghost use Rattle.std.specs.Prelude.{◌≤◌, ◌<◌, length};
ghost use Rattle.table_work.specs.Tables.{StartsTable, operand_files};
ghost use Rattle.sweep_operations.specs.declared.steps.StepOperation.TheVariants as steps;

use crate::TableSweep;
use bool_tables::{Bin, Quant};
use rec_words::Rec;
use run_merge::Parts;
use shelf_model::{FileNo, Shelf, SortFault};
use top_down_sweep::{Choice, OperandFiles, Operation, Product, Quantified, Restricted};

impl<'r> TableSweep<'r, Product> {
    /// Begins the operator on the files of two diagrams of `n` variables, which may be one file. The next two parts
    /// are its files of arcs, and those behind them are for its queue.
    pub fn start<S: Shelf>(
        op: Bin,
        n: u32,
        f: FileNo,
        g: FileNo,
        parts: Parts,
        room: &'r mut [Rec],
        shelf: &mut S,
    ) -> Result<TableSweep<'r, Product>, SortFault>
        requires room { 16384 ≤ length room.old }
        requires past_made { 3 ≤ parts.next }
        ensures starts { StartsTable ⟦<Product as Operation>⟧.rule ⟦<Product as Operation>⟧.begins
            S.tells S.world S.faults (steps.Operator op) n
            (operand_files f g g) parts shelf.old shelf.new result }
    {
        let operands = OperandFiles {
            first: f,
            second: g,
            third: g,
        };
        TableSweep::begin(Product { op }, n, operands, parts, room, shelf)
    }
}

impl<'r> TableSweep<'r, Choice> {
    /// Begins the choice on the files of three diagrams of `n` variables, which may be one file: `f` where `c` is 1,
    /// and else `g`. The next two parts are its files of arcs, and those behind them are for its queue.
    pub fn start<S: Shelf>(
        n: u32,
        c: FileNo,
        f: FileNo,
        g: FileNo,
        parts: Parts,
        room: &'r mut [Rec],
        shelf: &mut S,
    ) -> Result<TableSweep<'r, Choice>, SortFault>
        requires room { 16384 ≤ length room.old }
        requires past_made { 3 ≤ parts.next }
        ensures starts { StartsTable ⟦<Choice as Operation>⟧.rule ⟦<Choice as Operation>⟧.begins
            S.tells S.world S.faults steps.Choice n
            (operand_files c f g) parts shelf.old shelf.new result }
    {
        let operands = OperandFiles {
            first: c,
            second: f,
            third: g,
        };
        TableSweep::begin(Choice, n, operands, parts, room, shelf)
    }
}

impl<'r> TableSweep<'r, Quantified> {
    /// Begins the quantifier over the variable of a level, on the file of a diagram of `n` variables. The next two
    /// parts are its files of arcs, and those behind them are for its queue.
    pub fn start<S: Shelf>(
        kind: Quant,
        n: u32,
        f: FileNo,
        level: u32,
        parts: Parts,
        room: &'r mut [Rec],
        shelf: &mut S,
    ) -> Result<TableSweep<'r, Quantified>, SortFault>
        requires room { 16384 ≤ length room.old }
        requires within { level < n }
        requires past_made { 3 ≤ parts.next }
        ensures starts { StartsTable ⟦<Quantified as Operation>⟧.rule ⟦<Quantified as Operation>⟧.begins
            S.tells S.world S.faults
            (steps.Quantifier kind level) n (operand_files f f f) parts shelf.old shelf.new result }
    {
        let operands = OperandFiles {
            first: f,
            second: f,
            third: f,
        };
        let operation = Quantified {
            kind,
            variable: level,
        };
        TableSweep::begin(operation, n, operands, parts, room, shelf)
    }
}

impl<'r> TableSweep<'r, Restricted> {
    /// Begins the restriction of the variable of a level, on the file of a diagram of `n` variables. The next two parts
    /// are its files of arcs, and those behind them are for its queue.
    pub fn start<S: Shelf>(
        n: u32,
        f: FileNo,
        level: u32,
        value: bool,
        parts: Parts,
        room: &'r mut [Rec],
        shelf: &mut S,
    ) -> Result<TableSweep<'r, Restricted>, SortFault>
        requires room { 16384 ≤ length room.old }
        requires within { level < n }
        requires past_made { 3 ≤ parts.next }
        ensures starts { StartsTable ⟦<Restricted as Operation>⟧.rule ⟦<Restricted as Operation>⟧.begins
            S.tells S.world S.faults
            (steps.Restriction level value) n (operand_files f f f) parts shelf.old shelf.new result }
    {
        let operands = OperandFiles {
            first: f,
            second: f,
            third: f,
        };
        let operation = Restricted {
            variable: level,
            value,
        };
        TableSweep::begin(operation, n, operands, parts, room, shelf)
    }
}
