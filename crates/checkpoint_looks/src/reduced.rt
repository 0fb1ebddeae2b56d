//! Whether the checkpoint of a reduction stands for the table of its step.
use crate::diagrams::{Arcs, Assignment, NodeList, PlainArc, level_of, side_of, truth_of};
use crate::words::{Form, Point, Record, Wrong, ask_for, check_equal};
use case_lives::{ENDS, INNER, OUT};
use shelf_memory::Bench;
use std::alloc::Global;

/// How many words an item of the lists has: an arc of the queue, a row, and a name.
const ARC: usize = 3;

const ROW: usize = 3;

const NAME: usize = 2;

/// The bytes of a node.
const NODE: usize = 24;

/// From here sources are counted down in the queue and in names.
const LAST: u64 = 0x7fff_ffff_ffff_ffff;

/// The form of its words.
const WORDS: &Form = &Form {
    sweep: 1,
    tables: 5,
    files: &[(4, INNER), (7, ENDS), (10, OUT)],
    flags: &[
        (13, 5),
        (15, 1),
        (17, 1),
        (19, 4),
        (21, 2),
        (24, 0),
        (25, 1),
        (27, 3),
    ],
    words: 31,
};

/// The root of the diagram.
const ROOT: u64 = 0;

/// A diagram that isn't reduced, by all its arcs, and the canonical one of its table.
#[derive(Clone, Copy)]
pub(crate) struct Diagram<'a> {
    pub(crate) variables: u32,
    pub(crate) arcs: Arcs<'a>,
    pub(crate) canon: &'a NodeList,
}

impl<'a> Diagram<'a> {
    // Refuses a canonical pointer that isn't that of the function of a pointer of the diagram.
    fn check_final(&self, canonical: u64, pointer: u64) -> Result<(), Wrong> {
        let mut all = Ok(());
        for place in 0..1usize << self.variables.min(20) {
            let at = Assignment {
                variables: self.variables,
                place,
            };
            let value = self.arcs.value(pointer, at);
            all = all.and(check_equal(self.canon.value(canonical, at), value));
        }
        all
    }

    // The same for the target of a side.
    fn check_side(&self, canonical: u64, side: u64) -> Result<(), Wrong> {
        self.check_final(canonical, self.arcs.only(side)?)
    }

    // How many of the canonical nodes are of that level or deeper.
    fn canonical_from(&self, level: u64) -> u64 {
        let mut count = 0u64;
        for node in self.canon.nodes.as_slice() {
            if level_of(node.uid) >= level {
                count = count.saturating_add(1);
            }
        }
        count
    }
}

/// What is done with the level at hand.
#[derive(Clone, Copy)]
enum Doing {
    /// It is finished.
    Nothing,
    /// Its sources are collected: that one, and the pointers of its sides that are known.
    Collects {
        source: u64,
        low: Option<u64>,
        high: Option<u64>,
    },
    /// Its rows get numbers: so many have one, and the last of these has this pair.
    Numbers {
        count: u64,
        last: Option<(u64, u64)>,
    },
    /// Its names are forwarded.
    Forwards,
}

// The pair of the last row that has a number.
fn pair_of(point: Point<'_>) -> Option<(u64, u64)> {
    let pair = (point.carried(22), point.carried(23));
    point.has(21).then_some(pair)
}

// What the words from 13 to 26 say.
fn doing_of(point: Point<'_>) -> Result<Doing, Wrong> {
    match (point.has(13), point.has(19), point.has(24)) {
        (false, false, false) => Ok(Doing::Nothing),
        (true, false, false) => Ok(Doing::Collects {
            source: point.carried(14),
            low: point.maybe(15),
            high: point.maybe(17),
        }),
        (false, true, false) => Ok(Doing::Numbers {
            count: point.carried(20),
            last: pair_of(point),
        }),
        (false, false, true) => Ok(Doing::Forwards),
        _ => Err(Wrong::Flag),
    }
}

/// What waits: arcs in the queue, rows, and names.
#[derive(Drop)]
struct Lists<'a> {
    queue: Vec<Record<'a>>,
    rows: Vec<Record<'a>>,
    names: Vec<Record<'a>>,
}

impl<'a> Lists<'a> {
    fn of(alloc: Global, point: Point<'_>, bench: &'a Bench) -> Result<Lists<'a>, Wrong> {
        let mut queue = Vec::new(alloc);
        let mut rows = Vec::new(alloc);
        let mut names = Vec::new(alloc);
        point
            .add_waiting(0, ARC, bench, &mut queue)
            .and(point.add_waiting(3, ROW, bench, &mut rows))
            .and(point.add_waiting(4, NAME, bench, &mut names))
            .and(Ok(Lists { queue, rows, names }))
    }
}

/// What a checkpoint says of a reduction, with the files that it rests on.
#[derive(Clone, Copy)]
struct Picture<'a> {
    diagram: Diagram<'a>,
    level: u64,
    doing: Doing,
    queue: &'a [Record<'a>],
    rows: &'a [Record<'a>],
    names: &'a [Record<'a>],
}

// The source of an arc of the queue or of a name, whose first word counts it down.
fn counted_down(record: Record<'_>) -> u64 {
    LAST.wrapping_sub(record.word(0))
}

// The side of an arc of the queue.
fn queued_side(record: Record<'_>) -> u64 {
    counted_down(record).wrapping_mul(2) | record.word(1)
}

// Refuses a checkpoint whose words name something else than the reduction of a diagram of n variables.
fn check_task(n: u32, point: Point<'_>) -> Result<(), Wrong> {
    point
        .check_form(WORDS)
        .and(point.check_word(0, u64::from(n)))
        .and(point.check_word(2, ROOT))
        .and(point.check_word(25, 0))
        .and(point.check_no_runs(1, 2))
}

// How many arcs of the queue are of that side.
fn queued(queue: &[Record<'_>], side: u64) -> u64 {
    let mut count = 0u64;
    for record in queue {
        if queued_side(*record) == side {
            count = count.saturating_add(1);
        }
    }
    count
}

// How many arcs of the queue are of these.
fn queued_of(queue: &[Record<'_>], arcs: &[PlainArc]) -> u64 {
    let mut count = 0u64;
    for arc in arcs {
        count = count.saturating_add(queued(queue, arc.side()));
    }
    count
}

// How many names are of that source.
fn named(names: &[Record<'_>], source: u64) -> u64 {
    let mut count = 0u64;
    for name in names {
        if counted_down(*name) == source {
            count = count.saturating_add(1);
        }
    }
    count
}

// How many rows are of that source.
fn in_rows(rows: &[Record<'_>], source: u64) -> u64 {
    let mut count = 0u64;
    for row in rows {
        if row.word(2) == source {
            count = count.saturating_add(1);
        }
    }
    count
}

impl<'a> Picture<'a> {
    // How many rows and names are of that source.
    fn closed(&self, source: u64) -> u64 {
        in_rows(self.rows, source).saturating_add(named(self.names, source))
    }

    // Whether the arc is of the source that is collected, and its side is known.
    fn is_noted(&self, arc: &PlainArc) -> bool {
        match self.doing {
            Doing::Collects { source, low, high } if source == arc.source => {
                let known = if arc.high { high } else { low };
                known.is_some()
            }
            _ => false,
        }
    }

    // Whether the names of the level at hand, or the level itself, are done with.
    fn is_finished(&self, level: u64) -> bool {
        match self.doing {
            Doing::Nothing => self.level <= level,
            _ => self.level < level,
        }
    }

    // Whether an arc of the level at hand is in one place: a source that is collected, an arc of the queue, a row or a
    // name. A name that was forwarded is given up.
    fn is_at_hand(&self, places: u64, closed: u64) -> bool {
        match self.doing {
            Doing::Forwards => places == closed && closed <= 1,
            Doing::Numbers { .. } => places == 1 && closed == 1,
            _ => places == 1,
        }
    }

    // Whether an arc to the level at hand was forwarded or is to be, while names are forwarded.
    fn is_forwarded(&self, target: u64, unread: bool, queued: u64) -> bool {
        unread && named(self.names, target) == 1 || queued == 1
    }

    // Whether an arc of a level above that at hand is unread until its target's final pointer is known.
    fn waits(&self, target: u64, unread: bool, queued: u64) -> bool {
        let level = level_of(target);
        if truth_of(target).is_some() {
            return unread;
        }
        match self.doing {
            Doing::Forwards if level == self.level => self.is_forwarded(target, unread, queued),
            _ if self.is_finished(level) => queued == 1,
            _ => unread,
        }
    }

    // Whether an arc is where it has to be: done with, collected, in the queue, or unread.
    fn is_placed(&self, arc: &PlainArc, unread: bool) -> bool {
        let queued = queued(self.queue, arc.side());
        let closed = self.closed(arc.source);
        let noted = u64::from(unread).saturating_add(u64::from(self.is_noted(arc)));
        let places = queued.saturating_add(closed).saturating_add(noted);
        let level = level_of(arc.source);
        if self.is_finished(level) {
            places == 0
        } else if level == self.level {
            self.is_at_hand(places, closed)
        } else {
            places == 1 && closed == 0 && self.waits(arc.target, unread, queued)
        }
    }

    // Refuses arcs of which one isn't where it has to be; the first ones, so many, are unread.
    fn check_arcs(&self, arcs: &[PlainArc], left: u64) -> Result<(), Wrong> {
        let mut place = 0u64;
        let mut right = left <= arcs.len() as u64;
        for arc in arcs {
            right = right && self.is_placed(arc, place < left);
            place = place.saturating_add(1);
        }
        ask_for(right, Wrong::Side)
    }

    // Refuses arcs of the queue that aren't in the diagram, have another pointer than the final one of their target, or
    // come before the last one that was taken.
    fn check_queue(&self, last: Option<Record<'_>>) -> Result<(), Wrong> {
        let mut all = Ok(());
        for record in self.queue {
            let (pointer, side) = (record.word(2), queued_side(*record));
            all = all
                .and(ask_for(may_follow(last, *record), Wrong::Waiting))
                .and(self.diagram.check_side(pointer, side));
        }
        all
    }

    // Whether a source is of the level at hand and closed once.
    fn is_closed(&self, source: u64) -> bool {
        self.closed(source) == 1 && level_of(source) == self.level
    }

    // Refuses names that aren't of the level at hand, or have another pointer than the final one of their source.
    fn check_names(&self) -> Result<(), Wrong> {
        let mut all = Ok(());
        for name in self.names {
            let source = counted_down(*name);
            all = all
                .and(ask_for(self.is_closed(source), Wrong::Waiting))
                .and(self.diagram.check_final(name.word(1), source));
        }
        all
    }

    // Whether a row may wait for its number: it comes no earlier than the last one that got one.
    fn may_wait(&self, low: u64, high: u64) -> bool {
        match self.doing {
            Doing::Collects { .. } => true,
            Doing::Numbers { last, .. } => match last {
                Some(last) => last.0 < low || last.0 == low && last.1 <= high,
                None => true,
            },
            _ => false,
        }
    }

    // Refuses another pointer than the final one of a side of a source, where one is known.
    fn check_known_side(&self, known: Option<u64>, source: u64, high: bool) -> Result<(), Wrong> {
        match known {
            Some(pointer) => self.diagram.check_side(pointer, side_of(source, high)),
            None => Ok(()),
        }
    }

    // Refuses a row that isn't of the level at hand, has other pointers than the final ones of its sides, or comes
    // before the last one that got a number.
    fn check_row(&self, row: Record<'_>) -> Result<(), Wrong> {
        let (low, high, source) = (row.word(0), row.word(1), row.word(2));
        let waits = self.is_closed(source) && self.may_wait(low, high);
        ask_for(waits && low != high, Wrong::Waiting)
            .and(self.diagram.check_side(low, side_of(source, false)))
            .and(self.diagram.check_side(high, side_of(source, true)))
    }

    // Refuses rows of which one is to be refused.
    fn check_rows(&self) -> Result<(), Wrong> {
        let mut all = Ok(());
        for row in self.rows {
            all = all.and(self.check_row(*row));
        }
        all
    }

    // Refuses a source at hand that isn't of the level, or has another pointer than the final one of a side.
    fn check_hand(&self) -> Result<(), Wrong> {
        let Doing::Collects { source, low, high } = self.doing else {
            return Ok(());
        };
        let some = low.is_some() || high.is_some();
        let fits = level_of(source) == self.level && self.closed(source) == 0;
        ask_for(some && fits, Wrong::Hand)
            .and(self.check_known_side(low, source, false))
            .and(self.check_known_side(high, source, true))
    }

    // How many nodes have to be kept.
    fn nodes_wanted(&self) -> u64 {
        let deeper = self.diagram.canonical_from(self.level.saturating_add(1));
        match self.doing {
            Doing::Collects { .. } => deeper,
            Doing::Numbers { count, .. } => deeper.saturating_add(count),
            _ => self.diagram.canonical_from(self.level),
        }
    }

    // Whether the last node that is kept has the pair of the last row that got a number.
    fn ends_with(&self, last: Option<(u64, u64)>, count: u64, kept: u64) -> bool {
        let Some((low, high)) = last else {
            return count == 0;
        };
        let place = kept.saturating_sub(1) as usize;
        match self.diagram.canon.nodes.as_slice().get(place) {
            Some(node) => count > 0 && node.low == low && node.high == high,
            None => false,
        }
    }

    // Refuses as many nodes as there haven't to be, or another last row than that of the last one.
    fn check_count(&self, kept: u64) -> Result<(), Wrong> {
        let ends = match self.doing {
            Doing::Numbers { count, last } => self.ends_with(last, count, kept),
            _ => true,
        };
        ask_for(kept == self.nodes_wanted(), Wrong::Nodes).and(ask_for(ends, Wrong::Number))
    }

    // Refuses another final pointer of the root, once its level is finished.
    fn check_known(&self, known: u64) -> Result<(), Wrong> {
        if self.is_finished(level_of(ROOT)) {
            self.diagram.check_final(known, ROOT)
        } else {
            Ok(())
        }
    }

    // Refuses items that are of no arc.
    fn check_total(&self) -> Result<(), Wrong> {
        let inner = queued_of(self.queue, self.diagram.arcs.inner);
        let ends = queued_of(self.queue, self.diagram.arcs.ends);
        let all = inner.saturating_add(ends) == self.queue.len() as u64;
        ask_for(all, Wrong::Waiting)
    }

    // Refuses lists that aren't those of the diagram at that place.
    fn check_lists(&self, point: Point<'_>) -> Result<(), Wrong> {
        self.check_arcs(self.diagram.arcs.inner, point.carried(6))
            .and(self.check_arcs(self.diagram.arcs.ends, point.carried(9)))
            .and(self.check_total())
            .and(self.check_queue(point.maybe_record(27, ARC)))
            .and(self.check_names())
            .and(self.check_rows())
            .and(self.check_hand())
            .and(self.check_known(point.carried(3)))
            .and(self.check_count(point.carried(12)))
    }
}

// Whether an arc of the queue is of a side, and comes no earlier than the last one that was taken.
fn may_follow(last: Option<Record<'_>>, record: Record<'_>) -> bool {
    let later = match last {
        Some(last) => !record.precedes(last, ARC),
        None => true,
    };
    later && record.word(1) <= 1
}

// Refuses nodes that aren't the first ones of the canonical file.
fn check_nodes(kept: u64, made: &[u8], canon: &[u8]) -> Result<(), Wrong> {
    let end = (kept as usize).saturating_mul(NODE);
    let nodes = made.get(0..end);
    ask_for(nodes.is_some() && nodes == canon.get(0..end), Wrong::Nodes)
}

/// Refuses a checkpoint that doesn't stand for the reduction of a diagram whose canonical file has these bytes.
pub(crate) fn check_reduced(
    alloc: Global,
    diagram: Diagram<'_>,
    bytes: &[u8],
    point: Point<'_>,
    bench: &Bench,
) -> Result<(), Wrong> {
    let nodes = check_nodes(point.carried(12), bench.file(OUT), bytes);
    check_task(diagram.variables, point).and(nodes)?;
    let doing = doing_of(point)?;
    let lists = Lists::of(alloc, point, bench)?;
    let picture = Picture {
        diagram,
        level: point.carried(1),
        doing,
        queue: lists.queue.as_slice(),
        rows: lists.rows.as_slice(),
        names: lists.names.as_slice(),
    };
    picture.check_lists(point)
}
