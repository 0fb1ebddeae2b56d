use arc_diagrams::{FinalArc, Name, SourceRow};
use arc_file::{Arc, ArcReader};
use level_queue::LevelQueue;
use run_merge::Sorter;

/// The arcs that come next: those of the two files, of each of which one is read ahead, and those of the queue.
#[derive(Drop)]
pub struct Ahead<'r> {
    pub reader: ArcReader<'r>,
    pub inner: Option<Arc>,
    pub end: Option<Arc>,
    pub queue: LevelQueue<'r, FinalArc>,
}

/// The rows and the names of the level at hand.
#[derive(Drop)]
pub struct Lists<'r> {
    pub rows: Sorter<'r, SourceRow>,
    pub names: Sorter<'r, Name>,
}
