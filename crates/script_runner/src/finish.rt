use shelf_model::FileNo;

/// How a run of steps ended.
#[derive(Clone, Copy, Debug, PartialEq, Eq)]
pub enum Finish {
    /// Every step is committed, and its lines are said.
    Done,
    /// Another job is stored. The byte is the first at which the two differ, the budget at 8 to 11 aside, or the
    /// shorter length.
    OtherJob { at: u64 },
    /// A call of the folder failed.
    FolderFault,
    /// A line couldn't be said.
    SayFault,
    /// A file of the folder doesn't hold what it should, from that byte on.
    Damaged { file: FileNo, at: u64 },
    /// That step needs a new file, and has no part number left.
    RunsSpent { step: u32 },
}
