/// How a job stands that was attached.
#[derive(Clone, Copy, Debug, PartialEq, Eq)]
pub struct Standing {
    /// Whether no job was stored before.
    pub fresh: bool,
    /// How many of its steps are committed.
    pub done: u32,
}
