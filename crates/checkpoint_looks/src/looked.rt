//! What the checkpoints of a plan are looked at with: what stands in its folder before its sweep begins.
ghost use Rattle.std.specs.Prelude.{◌≤◌, length};

use crate::answered::{check_copy, check_same, check_value};
use crate::asked::{Meant, Operands};
use crate::cases::{Kind, Plan, Tables};
use crate::diagrams::{ArcLists, Assignment, NodeList};
use crate::from_root::{TopDownTask, check_top_down};
use crate::lives::live_on;
use crate::reduced::{Diagram, check_reduced};
use crate::words::{Point, Wrong};
use case_lives::{ENDS, INNER, Lived, MADE};
use case_tables::{FIRST, SECOND, THIRD, bench_of};
use rec_words::Rec;
use shelf_memory::Bench;
use std::alloc::Global;
use std::test::Fail;
use sweep_core::Turn;

/// The nodes of the three files of tables.
#[derive(Drop)]
struct Nodes {
    first: NodeList,
    second: NodeList,
    third: NodeList,
}

impl Nodes {
    // Those in a folder.
    fn of(alloc: Global, bench: &Bench) -> Result<Nodes, Wrong> {
        let mut first = NodeList::empty(alloc);
        let mut second = NodeList::empty(alloc);
        let mut third = NodeList::empty(alloc);
        first
            .read(bench.file(FIRST))
            .and(second.read(bench.file(SECOND)))
            .and(third.read(bench.file(THIRD)))
            .and(Ok(Nodes {
                first,
                second,
                third,
            }))
    }

    fn operands(&self) -> Operands<'_> {
        Operands {
            first: &self.first,
            second: &self.second,
            third: &self.third,
        }
    }
}

/// A plan with the table that its sweep makes or reads from, the answer that is wanted, the arcs of a diagram that is
/// reduced, and the nodes of the files that its sweep reads.
#[derive(Drop)]
pub(crate) struct Looked {
    pub(crate) plan: Plan,
    wanted: Vec<bool>,
    answer: Option<bool>,
    lists: ArcLists,
    nodes: Nodes,
}

// The bytes of a file of nodes without its trailer.
fn nodes_in(bytes: &[u8]) -> &[u8] {
    match bytes.get(0..bytes.len().saturating_sub(24)) {
        Some(nodes) => nodes,
        None => bytes,
    }
}

// All arcs of the two files of a folder.
fn all_arcs(alloc: Global, bench: &Bench) -> Result<ArcLists, Wrong> {
    let (inner, ends) = (bench.file(INNER).len() / 16, bench.file(ENDS).len() / 16);
    ArcLists::of(alloc, inner as u64, ends as u64, bench)
}

impl Looked {
    // That of a plan with these tables, whose folder this is.
    fn in_folder(
        alloc: Global,
        plan: Plan,
        tables: &Tables,
        bench: &Bench,
    ) -> Result<Looked, Fail> {
        let wanted = tables.wanted(alloc, plan)?;
        let answer = tables.answer(plan.kind, wanted.as_slice());
        let lists = all_arcs(alloc, bench)?;
        let nodes = Nodes::of(alloc, bench)?;
        Ok(Looked {
            plan,
            wanted,
            answer,
            lists,
            nodes,
        })
    }

    // That of a plan with these tables, and the folder in which its sweep begins.
    fn with(alloc: Global, plan: Plan, tables: &Tables) -> Result<(Looked, Bench), Fail> {
        let mut bench = bench_of(alloc, plan.variables(), tables.slices())?;
        tables.put_arcs(alloc, plan, &mut bench)?;
        let looked = Looked::in_folder(alloc, plan, tables, &bench)?;
        Ok((looked, bench))
    }

    /// That of a plan, and the folder in which its sweep begins.
    pub(crate) fn of(alloc: Global, plan: Plan) -> Result<(Looked, Bench), Fail> {
        let tables = Tables::of(alloc, plan)?;
        Looked::with(alloc, plan, &tables)
    }

    // Whether the sweep has ended behind a life. Refused where it can't be lived, or answers otherwise than it has to.
    fn has_ended_with(&self, lived: Option<Lived>) -> Result<bool, Fail> {
        let Some(lived) = lived else {
            return Err(Fail::from("a checkpoint that doesn't fit"));
        };
        let ended = lived.turn == Turn::Ended;
        let right = self.answer.is_none() || self.answer == lived.answer;
        if ended && !right {
            Err(Fail::from("another answer"))
        } else {
            Ok(ended)
        }
    }

    /// Whether the sweep has ended behind at most so many turns more. Refused where it doesn't go on from its
    /// checkpoint, or answers otherwise than it has to.
    pub(crate) fn has_ended(
        &self,
        most: u64,
        room: &mut [Rec],
        bench: &mut Bench,
    ) -> Result<bool, Fail>
        requires { 16384 ≤ length room.old }
    {
        let lived = live_on(self.plan, most, room, bench)?;
        self.has_ended_with(lived)
    }

    // Refuses a checkpoint that doesn't stand for an operation on the tables.
    fn check_operation(
        &self,
        alloc: Global,
        meant: Meant,
        of_step: bool,
        point: Point<'_>,
        bench: &Bench,
    ) -> Result<(), Wrong> {
        let task = TopDownTask {
            variables: self.plan.variables(),
            meant,
            of_step,
            third: self.plan.kind.third(),
        };
        let operands = self.nodes.operands();
        let wanted = self.wanted.as_slice();
        check_top_down(alloc, &task, operands, wanted, point, bench)
    }

    // Refuses a checkpoint that doesn't stand for the reduction of the arcs.
    fn check_reduction(&self, alloc: Global, point: Point<'_>, bench: &Bench) -> Result<(), Wrong> {
        let diagram = Diagram {
            variables: self.plan.variables(),
            arcs: self.lists.arcs(),
            canon: &self.nodes.first,
        };
        check_reduced(alloc, diagram, nodes_in(bench.file(FIRST)), point, bench)
    }

    // Refuses a checkpoint that doesn't stand for the answer of a comparison.
    fn check_comparison(&self, point: Point<'_>, bench: &Bench) -> Result<(), Wrong> {
        let Some(wanted) = self.answer else {
            return Err(Wrong::Missing);
        };
        let first = nodes_in(bench.file(FIRST));
        let second = nodes_in(bench.file(SECOND));
        check_same(self.plan.variables(), first, second, wanted, point)
    }

    // The same of an evaluation.
    fn check_evaluation(&self, place: usize, point: Point<'_>) -> Result<(), Wrong> {
        let Some(wanted) = self.answer else {
            return Err(Wrong::Missing);
        };
        let at = Assignment {
            variables: self.plan.variables(),
            place,
        };
        check_value(&self.nodes.first, at, wanted, point)
    }

    /// Refuses a checkpoint that doesn't stand for what is left to do.
    pub(crate) fn check(
        &self,
        alloc: Global,
        point: Point<'_>,
        bench: &Bench,
    ) -> Result<(), Wrong> {
        if let Some((meant, of_step)) = self.plan.kind.saved_operation() {
            return self.check_operation(alloc, meant, of_step, point, bench);
        }
        match self.plan.kind {
            Kind::Reduction(_) => self.check_reduction(alloc, point, bench),
            Kind::Comparison(_) => self.check_comparison(point, bench),
            Kind::Value(place) => self.check_evaluation(place, point),
            Kind::Copy(pieces) => check_copy(bench.file(FIRST), bench.file(MADE), pieces, point),
            _ => Err(Wrong::Missing),
        }
    }

    /// The same of the last checkpoint in a folder.
    pub(crate) fn look(&self, alloc: Global, bench: &Bench) -> Result<(), Wrong> {
        self.check(alloc, Point::last_of(bench)?, bench)
    }
}
