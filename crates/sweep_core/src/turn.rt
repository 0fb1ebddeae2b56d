/// Whether a sweep goes on after a turn.
#[derive(Clone, Copy, Debug, PartialEq, Eq)]
pub enum Turn {
    /// Something may remain to be done.
    More,
    /// All is done.
    Ended,
}
