//! Whether the checkpoint of a sweep from the root down stands for the table of its step.
use crate::asked::{Asked, Meant, Operands};
use crate::diagrams::{
    ArcLists, Arcs, Assignment, NodeList, PlainArc, YES, are_ends, are_inner, first_of, level_of,
    side_of, truth_of,
};
use crate::words::{Form, Point, Record, Wrong, ask_for, check_equal, put};
use case_lives::{ENDS, INNER};
use case_tables::{FIRST, SECOND};
use shelf_memory::Bench;
use shelf_model::FileNo;
use std::alloc::Global;

/// The asker of the root's ask.
const NOBODY: u64 = u64::MAX;

/// How many words of an ask come before its asker, and of a tuple before its number.
const FORM: usize = 7;

/// The operation of a step, the variables that it is on, and the file of its third operand.
#[derive(Clone, Copy)]
pub(crate) struct TopDownTask {
    pub(crate) variables: u32,
    pub(crate) meant: Meant,
    /// Whether its words are those of a step's operation, of whichever kind, or those of its own kind alone.
    pub(crate) of_step: bool,
    pub(crate) third: FileNo,
}

/// What a checkpoint says of a sweep, with the files that it rests on.
#[derive(Clone, Copy)]
struct Picture<'a> {
    variables: u32,
    meant: Meant,
    operands: Operands<'a>,
    arcs: Arcs<'a>,
    waiting: &'a [Record<'a>],
    root: u64,
    /// The tuple that was numbered last, whose eighth word is its number, and the ask that was taken last.
    newest: Option<Record<'a>>,
    taken: Option<Record<'a>>,
}

// Refuses a checkpoint whose words from 40 on aren't these.
fn check_words(point: Point<'_>, words: &[u64]) -> Result<(), Wrong> {
    let mut at = 40usize;
    let mut all = Ok(());
    for word in words {
        all = all.and(point.check_word(at, *word));
        at = at.saturating_add(1);
    }
    all
}

/// The form of its words. The file of the third operand is named from place 10 on.
const WORDS: &Form = &Form {
    sweep: 0,
    tables: 3,
    files: &[(2, FIRST), (6, SECOND), (14, INNER), (17, ENDS)],
    flags: &[(1, 0), (4, 1), (8, 1), (12, 1), (20, 1), (22, 8), (31, 8)],
    words: 51,
};

// Refuses a checkpoint whose words name something else than the task.
fn check_task(task: &TopDownTask, point: Point<'_>) -> Result<(), Wrong> {
    point
        .check_form(WORDS)
        .and(point.check_word(0, u64::from(task.variables)))
        .and(point.check_word(10, u64::from(task.third.step)))
        .and(point.check_word(11, task.third.part))
        .and(point.check_word(20, 1))
        .and(point.check_no_runs(1, 2))
        .and(check_words(point, &task.meant.words(task.of_step)))
}

/// Where a side leads.
#[derive(Clone, Copy)]
enum Lead<'a> {
    /// To a pointer.
    To(u64),
    /// To the tuple of an ask that waits.
    Asks(Record<'a>),
}

// The ask of a side; refused where there are two.
fn ask_of<'a>(waiting: &[Record<'a>], side: u64) -> Result<Option<Record<'a>>, Wrong> {
    let mut found = Ok(None);
    for ask in waiting {
        if ask.word(FORM) == side {
            found = match found {
                Ok(None) => Ok(Some(*ask)),
                _ => Err(Wrong::Side),
            };
        }
    }
    found
}

// Whether a node lies behind the key of no ask.
fn is_up_to_keys(waiting: &[Record<'_>], uid: u64) -> bool {
    for ask in waiting {
        if uid > ask.word(0) {
            return false;
        }
    }
    true
}

// Whether a node at hand is there, and lies behind the key of no ask.
fn may_be_at_hand(waiting: &[Record<'_>], list: &NodeList, hand: Option<u64>) -> bool {
    let Some(place) = hand else {
        return true;
    };
    match list.nodes.as_slice().get(place as usize) {
        Some(node) => is_up_to_keys(waiting, node.uid),
        None => false,
    }
}

// Puts the nodes that have a number behind others: the root, and those that arcs lead to, which ascend.
fn add_numbered(root: u64, inner: &[PlainArc], into: &mut Vec<u64>) -> Result<(), Wrong> {
    let mut last = root;
    let mut all = put(into, last);
    for arc in inner {
        if arc.target != last {
            last = arc.target;
            all = all.and(put(into, last));
        }
    }
    all
}

// Whether a node's number is the one behind that of another one, or the first one of a deeper level.
fn follows(node: u64, last: u64) -> bool {
    let level = level_of(node);
    if level_of(last) == level {
        node == last.wrapping_add(1)
    } else {
        level_of(last) < level && node == first_of(level)
    }
}

// Refuses numbers that leave a gap, from that of the root up to that of the node that was numbered last.
fn check_numbers(root: u64, nodes: &[u64], newest: u64) -> Result<(), Wrong> {
    let mut last = root;
    let mut right = root == first_of(level_of(root));
    for node in nodes {
        right = right && (*node == root || follows(*node, last));
        last = *node;
    }
    ask_for(right && last == newest, Wrong::Number)
}

// Refuses arcs that aren't in the order of their files, or of which it isn't known whether one leads to 1.
fn check_arcs(arcs: Arcs<'_>, variables: u32, has_one: bool) -> Result<(), Wrong> {
    let inner = are_inner(arcs.inner, variables);
    let ends = are_ends(arcs.ends, variables);
    let mut one = false;
    for arc in arcs.ends {
        one = one || arc.target == YES;
    }
    ask_for(inner && ends && one == has_one, Wrong::Arcs)
}

// The last side from which an arc leads to a node, or 0.
fn last_side_to(node: u64, arcs: &[PlainArc]) -> u64 {
    let mut last = 0u64;
    for arc in arcs {
        if arc.target == node {
            last = last.max(arc.side());
        }
    }
    last
}

// Refuses it where the newest tuple, or an arc to its node, is from behind the last ask that was taken.
fn check_answered(taken: Record<'_>, newest: Record<'_>, inner: &[PlainArc]) -> Result<(), Wrong> {
    let earlier = newest.precedes(taken, FORM);
    let same = !earlier && !taken.precedes(newest, FORM);
    let answered = same && last_side_to(node_of(newest), inner) <= taken.word(FORM);
    ask_for(earlier || answered, Wrong::Waiting)
}

// The node of a tuple that was numbered.
fn node_of(newest: Record<'_>) -> u64 {
    first_of(level_of(newest.word(0))).saturating_add(newest.word(FORM))
}

impl<'a> Picture<'a> {
    fn at(&self, place: usize) -> Assignment {
        Assignment {
            variables: self.variables,
            place,
        }
    }

    // A tuple as it is asked for.
    fn asked(&self, form: Record<'a>) -> Asked<'a> {
        Asked {
            form,
            operands: self.operands,
        }
    }

    // The value of a tuple's function.
    fn asked_value(&self, form: Record<'a>, at: Assignment) -> Result<bool, Wrong> {
        self.meant.value(&self.asked(form), at)
    }

    // Whether the operation asks for a tuple.
    fn asks(&self, form: Record<'a>) -> bool {
        self.asked(form).is_of(self.meant)
    }

    // Where a side leads: along an arc, or to a tuple that is asked for.
    fn lead_of(&self, side: u64) -> Result<Lead<'a>, Wrong> {
        match (self.arcs.target(side), ask_of(self.waiting, side)) {
            (Ok(Some(target)), Ok(None)) => Ok(Lead::To(target)),
            (Ok(None), Ok(Some(ask))) => Ok(Lead::Asks(ask)),
            _ => Err(Wrong::Side),
        }
    }

    // The value of a node's function: along arcs to a truth value, or to a tuple that is asked for.
    fn node_value(&self, node: u64, at: Assignment) -> Result<bool, Wrong> {
        let mut here = node;
        for _level in 0..at.variables {
            match self.lead_of(side_of(here, at.bit(level_of(here)))) {
                Ok(Lead::Asks(ask)) => return self.asked_value(ask, at),
                Ok(Lead::To(target)) => here = target,
                Err(wrong) => return Err(wrong),
            }
            if let Some(value) = truth_of(here) {
                return Ok(value);
            }
        }
        Err(Wrong::Side)
    }

    // The value that the whole stands for: that of the root's node, or of the root's ask while nothing has a number.
    fn value(&self, at: Assignment) -> Result<bool, Wrong> {
        if self.newest.is_some() {
            return self.node_value(self.root, at);
        }
        match ask_of(self.waiting, NOBODY) {
            Ok(Some(ask)) => self.asked_value(ask, at),
            _ => Err(Wrong::Side),
        }
    }

    // Refuses it where it stands for another table.
    fn check_table(&self, wanted: &[bool]) -> Result<(), Wrong> {
        let mut place = 0usize;
        let mut all = Ok(());
        for value in wanted {
            all = all.and(check_equal(self.value(self.at(place)), Ok(*value)));
            place = place.saturating_add(1);
        }
        all
    }

    // Refuses it where the tuple that was numbered last hasn't the function of its node, or isn't asked for.
    fn check_newest(&self, newest: Record<'a>, places: usize) -> Result<(), Wrong> {
        let mut all = ask_for(self.asks(newest), Wrong::Waiting);
        for place in 0..places {
            let at = self.at(place);
            let value = self.node_value(node_of(newest), at);
            all = all.and(check_equal(self.asked_value(newest, at), value));
        }
        all
    }

    // Refuses an operand's node at hand that isn't there, or lies behind the key of an ask.
    fn check_hands(&self, point: Point<'_>) -> Result<(), Wrong> {
        let first = may_be_at_hand(self.waiting, self.operands.first, point.maybe(4));
        let second = may_be_at_hand(self.waiting, self.operands.second, point.maybe(8));
        let third = may_be_at_hand(self.waiting, self.operands.third, point.maybe(12));
        ask_for(first && second && third, Wrong::Hand)
    }

    // Whether an ask comes behind the last one that was taken.
    fn is_later(&self, ask: Record<'_>) -> bool {
        match self.taken {
            Some(taken) => taken.precedes(ask, 8),
            None => true,
        }
    }

    // Refuses asks that aren't sound, or come no later than the last one that was taken.
    fn check_asks(&self) -> Result<(), Wrong> {
        let mut all = Ok(());
        for ask in self.waiting {
            let side = ask.word(FORM);
            let above = level_of(side / 2) < level_of(ask.word(0));
            let known = side == NOBODY || self.newest.is_some() && above;
            let sound = known && self.is_later(*ask) && self.asks(*ask);
            all = all.and(ask_for(sound, Wrong::Waiting));
        }
        all
    }

    // Whether both sides of a node lead somewhere.
    fn leads_on(&self, node: u64) -> bool {
        let low = self.lead_of(side_of(node, false)).is_ok();
        low && self.lead_of(side_of(node, true)).is_ok()
    }

    // How many arcs and asks there are.
    fn leads(&self) -> usize {
        let arcs = self.arcs.inner.len().saturating_add(self.arcs.ends.len());
        arcs.saturating_add(self.waiting.len())
    }

    // Refuses it where an arc or an ask is of no node that has a number, or a side of such a node leads nowhere.
    fn check_sides(&self, nodes: &[u64]) -> Result<(), Wrong> {
        let mut right = self.leads() == nodes.len().saturating_mul(2);
        for node in nodes {
            right = right && self.leads_on(*node);
        }
        ask_for(right, Wrong::Side)
    }

    // Refuses it where anything waits or was put but the root's ask.
    fn check_only_root(&self) -> Result<(), Wrong> {
        match ask_of(self.waiting, NOBODY) {
            Ok(Some(ask)) => {
                let root = self.root == first_of(level_of(ask.word(0)));
                ask_for(root && self.leads() == 1, Wrong::Side)
            }
            _ => Err(Wrong::Side),
        }
    }

    // Refuses it where what has numbers isn't as it has to be.
    fn check_numbered(
        &self,
        alloc: Global,
        newest: Record<'a>,
        taken: Record<'a>,
        places: usize,
    ) -> Result<(), Wrong> {
        let mut nodes = Vec::new(alloc);
        add_numbered(self.root, self.arcs.inner, &mut nodes)
            .and(check_numbers(self.root, nodes.as_slice(), node_of(newest)))
            .and(self.check_sides(nodes.as_slice()))
            .and(check_answered(taken, newest, self.arcs.inner))
            .and(self.check_newest(newest, places))
    }

    // Refuses it where something is at hand that isn't as it has to be.
    fn check_place(&self, alloc: Global, places: usize) -> Result<(), Wrong> {
        match (self.newest, self.taken) {
            (None, _) => self.check_only_root(),
            (Some(newest), Some(taken)) => self.check_numbered(alloc, newest, taken, places),
            _ => Err(Wrong::Waiting),
        }
    }

    // Refuses it where it isn't as it has to be beside the words of a checkpoint, or stands for another table.
    fn check(&self, alloc: Global, wanted: &[bool], point: Point<'_>) -> Result<(), Wrong> {
        check_arcs(self.arcs, self.variables, point.has(1))
            .and(self.check_asks())
            .and(self.check_hands(point))
            .and(self.check_place(alloc, wanted.len()))
            .and(self.check_table(wanted))
    }
}

/// Refuses a checkpoint that doesn't stand for the table of the task.
pub(crate) fn check_top_down(
    alloc: Global,
    task: &TopDownTask,
    operands: Operands<'_>,
    wanted: &[bool],
    point: Point<'_>,
    bench: &Bench,
) -> Result<(), Wrong> {
    let mut waiting = Vec::new(alloc);
    check_task(task, point).and(point.add_waiting(0, 8, bench, &mut waiting))?;
    let lists = ArcLists::of(alloc, point.carried(16), point.carried(19), bench)?;
    let picture = Picture {
        variables: task.variables,
        meant: task.meant,
        operands,
        arcs: lists.arcs(),
        waiting: waiting.as_slice(),
        root: point.carried(21),
        newest: point.maybe_record(22, 8),
        taken: point.maybe_record(31, 8),
    };
    picture.check(alloc, wanted, point)
}
