//! Diagrams of tables that aren't reduced: their nodes may be equal, and may have equal children.
use arc_file::Arc;
use case_tables::Random;
use rec_words::{Ptr, Uid};
use std::alloc::Global;
use std::test::Fail;

/// Which equal parts of a table lead to one node.
#[derive(Clone, Copy, Debug, PartialEq, Eq)]
pub(crate) enum Sharing {
    /// Each as chance has it, and so the arcs that pass over a level.
    Random,
    /// Those below a level, and arcs pass over each level that they can.
    Below(u16),
}

impl Sharing {
    fn may_share(self, level: u16) -> bool {
        match self {
            Sharing::Random => true,
            Sharing::Below(above) => level > above,
        }
    }

    fn shares(self, level: u16, random: &mut Random) -> bool {
        match self {
            Sharing::Random => random.bit(),
            Sharing::Below(_) => self.may_share(level),
        }
    }

    fn passes_over(self, random: &mut Random) -> bool {
        match self {
            Sharing::Random => random.bit(),
            Sharing::Below(_) => true,
        }
    }
}

/// A node, and the part of the table that it stands for.
#[derive(Clone, Copy)]
struct Standing<'t> {
    uid: Uid,
    level: u16,
    part: &'t [bool],
}

/// A diagram, with the nodes that its arcs lead to, in the order in which they were met, those of them that may be
/// shared, and how many each level has.
#[derive(Drop)]
struct Growing<'t> {
    nodes: Vec<Standing<'t>>,
    shareable: Vec<Standing<'t>>,
    counts: [u64; 21],
    sharing: Sharing,
    random: Random,
}

impl<'t> Growing<'t> {
    /// The pointer for a part of the table at a level.
    fn target(&mut self, level: u16, part: &'t [bool]) -> Result<Ptr, Fail> {
        let (level, part) = self.passed_over(level, part);
        if let [value] = part {
            return Ok(Ptr::terminal(*value));
        }
        if self.sharing.shares(level, &mut self.random) {
            for node in &self.shareable {
                if node.level == level && node.part == part {
                    return Ok(node.uid.ptr());
                }
            }
        }
        let number = self.next_number(level);
        let pointer = Ptr::node(level.min(65_534), number.min(1 << 20));
        let uid = Uid::of(pointer).ok_or("no node")?;
        self.nodes.reserve(1)?;
        self.nodes.push_reserved(Standing { uid, level, part });
        if self.sharing.may_share(level) {
            self.shareable.reserve(1)?;
            self.shareable.push_reserved(Standing { uid, level, part });
        }
        Ok(pointer)
    }

    /// How many nodes the level had, which is one more from then on.
    fn next_number(&mut self, level: u16) -> u64 {
        let Some(count) = self.counts.get_mut(usize::from(level)) else {
            return 0;
        };
        let number = *count;
        *count = number.saturating_add(1);
        number
    }

    /// A level and a part, or deeper ones that stand for the same.
    fn passed_over(&mut self, level: u16, part: &'t [bool]) -> (u16, &'t [bool]) {
        let mut level = level;
        let mut part = part;
        for _level in 0..20 {
            let (low, high) = part.split_at(part.len() / 2);
            if low != high || low.is_empty() || !self.sharing.passes_over(&mut self.random) {
                break;
            }
            level = level.saturating_add(1);
            part = low;
        }
        (level, part)
    }
}

/// The root of a diagram of a table, and its arcs in the order of arc files.
pub(crate) fn diagram_of(
    alloc: Global,
    table: &[bool],
    sharing: Sharing,
    random: Random,
) -> Result<(Ptr, Vec<Arc>), Fail> {
    let mut growing = Growing {
        nodes: Vec::new(alloc),
        shareable: Vec::new(alloc),
        counts: [0; 21],
        sharing,
        random,
    };
    let mut arcs = Vec::new(alloc);
    let root = growing.target(0, table)?;
    for place in 0..1usize << 20 {
        let Some(node) = growing.nodes.as_slice().get(place).copied() else {
            break;
        };
        let (low, high) = node.part.split_at(node.part.len() / 2);
        for (is_high, part) in [(false, low), (true, high)] {
            let target = growing.target(node.level.saturating_add(1), part)?;
            arcs.push(Arc {
                source: node.uid,
                high: is_high,
                target,
            })?;
        }
    }
    put_in_order(&mut arcs);
    Ok((root, arcs))
}

/// Sorts the arcs to nodes by target, source and side, and those to truth values by source and side.
fn put_in_order(arcs: &mut Vec<Arc>) {
    arcs.sort_unstable_by_key(|arc| {
        let target = match arc.target.value() {
            Some(_value) => Ptr::terminal(false),
            None => arc.target,
        };
        (target, arc.source, arc.high)
    });
}
