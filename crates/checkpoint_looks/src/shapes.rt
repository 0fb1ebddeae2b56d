//! Diagrams that aren't reduced, as the bytes of their two files of arcs.
use crate::diagrams::{NO, first_of};
use std::alloc::{AllocError, Global};

/// Which nodes a diagram has on each level, and where their sides lead.
#[derive(Clone, Copy)]
pub(crate) enum Shape {
    /// A node for each way down to it.
    Tree,
    /// A node for each number of ones on the way down to it, so that most are the target of two arcs.
    Counting,
}

// The first place of a table with so many ones.
fn with_ones(ones: u64) -> usize {
    (1usize << ones.min(20)).saturating_sub(1)
}

/// The value at a place, or 0 behind the end.
pub(crate) fn value_at(table: &[bool], place: usize) -> bool {
    match table.get(place) {
        Some(value) => *value,
        None => false,
    }
}

// Puts the two words of an arc behind others: its source, with its side in the highest bit, and its target. A side of a
// level is counted through all its nodes, two for each.
fn push_arc(into: &mut Vec<u8>, level: u64, side: u64, target: u64) -> Result<(), AllocError> {
    let source = first_of(level).wrapping_add(side / 2) | (side & 1) << 63;
    into.extend_from_slice(&source.to_be_bytes())
        .and(into.extend_from_slice(&target.to_be_bytes()))
}

impl Shape {
    /// A table that such a diagram has, from a random one.
    pub(crate) fn table(self, alloc: Global, random: &[bool]) -> Result<Vec<bool>, AllocError> {
        let mut made = Vec::new(alloc);
        for place in 0..random.len() {
            let from = match self {
                Shape::Tree => place,
                Shape::Counting => with_ones(u64::from(place.count_ones())),
            };
            made.push(value_at(random, from))?;
        }
        Ok(made)
    }

    // How many sides the nodes of a level have.
    fn sides(self, level: u64) -> u64 {
        match self {
            Shape::Tree => 2u64 << level.min(12),
            Shape::Counting => level.saturating_add(1).saturating_mul(2),
        }
    }

    // The number of the node of the next level where a side leads.
    fn below(self, side: u64) -> u64 {
        match self {
            Shape::Tree => side,
            Shape::Counting => (side / 2).saturating_add(side & 1),
        }
    }

    // Puts the arcs that lead to the nodes of a level. As the sides above ascend, so do the nodes where they lead.
    fn push_level(self, level: u64, into: &mut Vec<u8>) -> Result<(), AllocError> {
        let above = level.saturating_sub(1);
        let mut all = Ok(());
        for side in 0..self.sides(above) {
            let target = first_of(level).wrapping_add(self.below(side));
            all = all.and(push_arc(into, above, side, target));
        }
        all
    }

    /// The arcs to nodes of n levels, in the order of their file.
    pub(crate) fn inner(self, alloc: Global, n: u32) -> Result<Vec<u8>, AllocError> {
        let mut bytes = Vec::new(alloc);
        let mut all = Ok(());
        for level in 1..u64::from(n) {
            all = all.and(self.push_level(level, &mut bytes));
        }
        all.and(Ok(bytes))
    }

    /// Those from the last level to the values of a table.
    pub(crate) fn ends(self, alloc: Global, n: u32, table: &[bool]) -> Result<Vec<u8>, AllocError> {
        let mut bytes = Vec::new(alloc);
        let last = u64::from(n).saturating_sub(1);
        let mut all = Ok(());
        for side in 0..self.sides(last) {
            let place = match self {
                Shape::Tree => side as usize,
                Shape::Counting => with_ones(self.below(side)),
            };
            let value = u64::from(value_at(table, place));
            all = all.and(push_arc(&mut bytes, last, side, NO | value));
        }
        all.and(Ok(bytes))
    }
}
