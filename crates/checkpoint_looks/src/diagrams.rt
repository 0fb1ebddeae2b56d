//! Diagrams in files, evaluated at an assignment pointer by pointer.
use crate::words::{Wrong, put, word_in};
use case_lives::{ENDS, INNER};
use shelf_memory::Bench;
use std::alloc::Global;

/// The two pointers to truth values.
pub(crate) const NO: u64 = 0x8000_0000_0000_0000;

pub(crate) const YES: u64 = 0x8000_0000_0000_0001;

/// The level of a pointer. That of a truth value is deeper than any.
pub(crate) fn level_of(pointer: u64) -> u64 {
    pointer >> 47
}

/// The pointer to the first node of a level.
pub(crate) fn first_of(level: u64) -> u64 {
    level << 47
}

/// The truth value that a pointer is.
pub(crate) fn truth_of(pointer: u64) -> Option<bool> {
    match pointer {
        NO => Some(false),
        YES => Some(true),
        _ => None,
    }
}

/// The values of so many variables: the digits of a place of a table.
#[derive(Clone, Copy)]
pub(crate) struct Assignment {
    pub(crate) variables: u32,
    pub(crate) place: usize,
}

impl Assignment {
    // The digit of a level, that of level 0 the highest; 0 where it is none of the variables.
    fn digit(&self, level: u64) -> usize {
        match u64::from(self.variables).checked_sub(level) {
            None | Some(0) => 0,
            Some(below) => 1usize << (below - 1).min(40),
        }
    }

    /// The value of the variable of a level.
    pub(crate) fn bit(&self, level: u64) -> bool {
        self.place & self.digit(level) != 0
    }

    /// The same in which the variable of a level has a value.
    pub(crate) fn with(&self, level: u64, value: bool) -> Assignment {
        let digit = self.digit(level);
        let place = if value {
            self.place | digit
        } else {
            self.place & !digit
        };
        Assignment {
            variables: self.variables,
            place,
        }
    }
}

/// A node of a file.
#[derive(Clone, Copy)]
pub(crate) struct PlainNode {
    pub(crate) uid: u64,
    pub(crate) low: u64,
    pub(crate) high: u64,
}

/// The nodes of a file in its order, and the root in its trailer.
#[derive(Drop)]
pub(crate) struct NodeList {
    pub(crate) nodes: Vec<PlainNode>,
    pub(crate) root: u64,
}

// The node whose three words these bytes are.
fn node_in(bytes: &[u8]) -> PlainNode {
    PlainNode {
        uid: word_in(bytes, 0),
        low: word_in(bytes, 1),
        high: word_in(bytes, 2),
    }
}

impl NodeList {
    /// No nodes.
    pub(crate) fn empty(alloc: Global) -> NodeList {
        NodeList {
            nodes: Vec::new(alloc),
            root: NO,
        }
    }

    /// Puts the nodes that stand in the bytes of a file behind others. Behind them comes its trailer.
    pub(crate) fn read(&mut self, bytes: &[u8]) -> Result<(), Wrong> {
        let mut all = Ok(());
        for three in bytes.chunks_exact(24) {
            all = all.and(put(&mut self.nodes, node_in(three)));
        }
        if let Some(trailer) = self.nodes.pop() {
            self.root = trailer.uid;
        }
        all
    }

    /// The node of that identifier.
    pub(crate) fn node(&self, uid: u64) -> Option<PlainNode> {
        for node in self.nodes.as_slice() {
            if node.uid == uid {
                return Some(*node);
            }
        }
        None
    }

    /// Whether the pointer is a truth value or one of the nodes.
    pub(crate) fn has(&self, pointer: u64) -> bool {
        truth_of(pointer).is_some() || self.node(pointer).is_some()
    }

    /// Where a pointer leads at an assignment: along its node, or no further.
    pub(crate) fn next(&self, pointer: u64, at: Assignment) -> u64 {
        match self.node(pointer) {
            Some(node) if at.bit(level_of(pointer)) => node.high,
            Some(node) => node.low,
            None => pointer,
        }
    }

    /// The value of a pointer's function.
    pub(crate) fn value(&self, pointer: u64, at: Assignment) -> Result<bool, Wrong> {
        let mut here = pointer;
        for _level in 0..at.variables {
            here = self.next(here, at);
        }
        truth_of(here).ok_or(Wrong::Nodes)
    }
}

/// An arc, by the node that it leads from and its side.
#[derive(Clone, Copy)]
pub(crate) struct PlainArc {
    pub(crate) source: u64,
    pub(crate) high: bool,
    pub(crate) target: u64,
}

impl PlainArc {
    /// Who leads there: twice the source, and one more for its high side.
    pub(crate) fn side(&self) -> u64 {
        side_of(self.source, self.high)
    }
}

/// The word of a node's side.
pub(crate) fn side_of(source: u64, high: bool) -> u64 {
    source.wrapping_mul(2) | u64::from(high)
}

// The arc whose two words these bytes are.
fn arc_in(bytes: &[u8]) -> PlainArc {
    let source = word_in(bytes, 0);
    PlainArc {
        source: source & !NO,
        high: source >= NO,
        target: word_in(bytes, 1),
    }
}

// Puts the arcs that stand in bytes behind others.
fn add_arcs(bytes: &[u8], into: &mut Vec<PlainArc>) -> Result<(), Wrong> {
    let mut all = Ok(());
    for two in bytes.chunks_exact(16) {
        all = all.and(put(into, arc_in(two)));
    }
    all
}

// Puts the first arcs of a file, so many, behind others.
fn add_first(bytes: &[u8], count: u64, into: &mut Vec<PlainArc>) -> Result<(), Wrong> {
    match bytes.get(0..(count as usize).saturating_mul(16)) {
        Some(front) => add_arcs(front, into),
        None => Err(Wrong::Arcs),
    }
}

/// Whether arcs ascend by their targets and sides, each leads to a deeper node, and none stands twice.
pub(crate) fn are_inner(arcs: &[PlainArc], variables: u32) -> bool {
    let mut last_target = 0u64;
    let mut last_side = 0u64;
    for arc in arcs {
        let side = arc.side();
        let deeper = level_of(arc.source) < level_of(arc.target);
        let above = level_of(arc.target) < u64::from(variables);
        let behind = last_target < arc.target || last_target == arc.target && last_side < side;
        if !deeper || !above || !behind {
            return false;
        }
        last_target = arc.target;
        last_side = side;
    }
    true
}

/// Whether arcs ascend by their sides, each leads to a truth value, and no side has two.
pub(crate) fn are_ends(arcs: &[PlainArc], variables: u32) -> bool {
    let mut next = 0u64;
    for arc in arcs {
        let side = arc.side();
        let from_node = level_of(arc.source) < u64::from(variables);
        if !from_node || truth_of(arc.target).is_none() || side < next {
            return false;
        }
        next = side.saturating_add(1);
    }
    true
}

/// The target of the arc of a side, and how many arcs of it there are.
fn found(arcs: &[PlainArc], side: u64) -> (u64, u64) {
    let (mut target, mut count) = (0u64, 0u64);
    for arc in arcs {
        if arc.side() == side {
            target = arc.target;
            count = count.saturating_add(1);
        }
    }
    (target, count)
}

/// The arcs that were read from two files: those to nodes, and those to truth values.
#[derive(Drop)]
pub(crate) struct ArcLists {
    inner: Vec<PlainArc>,
    ends: Vec<PlainArc>,
}

impl ArcLists {
    /// The first arcs of the two files of a sweep, so many of each.
    pub(crate) fn of(
        alloc: Global,
        inner_count: u64,
        ends_count: u64,
        bench: &Bench,
    ) -> Result<ArcLists, Wrong> {
        let mut inner = Vec::new(alloc);
        let mut ends = Vec::new(alloc);
        add_first(bench.file(INNER), inner_count, &mut inner)
            .and(add_first(bench.file(ENDS), ends_count, &mut ends))
            .and(Ok(ArcLists { inner, ends }))
    }

    /// The arcs themselves.
    pub(crate) fn arcs(&self) -> Arcs<'_> {
        Arcs {
            inner: self.inner.as_slice(),
            ends: self.ends.as_slice(),
        }
    }
}

/// The arcs of a diagram that isn't reduced: those to nodes, and those to truth values.
#[derive(Clone, Copy)]
pub(crate) struct Arcs<'a> {
    pub(crate) inner: &'a [PlainArc],
    pub(crate) ends: &'a [PlainArc],
}

impl<'a> Arcs<'a> {
    /// Where a side leads, if anywhere; refused where it leads to more than one.
    pub(crate) fn target(&self, side: u64) -> Result<Option<u64>, Wrong> {
        let (node, nodes) = found(self.inner, side);
        let (end, ends) = found(self.ends, side);
        match (nodes, ends) {
            (0, 0) => Ok(None),
            (1, 0) => Ok(Some(node)),
            (0, 1) => Ok(Some(end)),
            _ => Err(Wrong::Side),
        }
    }

    /// Where it leads; refused where that is nowhere.
    pub(crate) fn only(&self, side: u64) -> Result<u64, Wrong> {
        match self.target(side) {
            Ok(Some(target)) => Ok(target),
            _ => Err(Wrong::Side),
        }
    }

    // Where a pointer leads at an assignment: along its node's side, or no further.
    fn next(&self, pointer: u64, at: Assignment) -> Result<u64, Wrong> {
        if truth_of(pointer).is_some() {
            Ok(pointer)
        } else {
            self.only(side_of(pointer, at.bit(level_of(pointer))))
        }
    }

    /// The value of a pointer's function.
    pub(crate) fn value(&self, pointer: u64, at: Assignment) -> Result<bool, Wrong> {
        let mut here = pointer;
        for _level in 0..at.variables {
            match self.next(here, at) {
                Ok(next) => here = next,
                Err(wrong) => return Err(wrong),
            }
        }
        truth_of(here).ok_or(Wrong::Side)
    }
}
