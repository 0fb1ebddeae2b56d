/// The number of a file in a folder: the step that it belongs to, and which of that step's files it is.
#[derive(Clone, Copy, Debug, PartialEq, Eq, PartialOrd, Ord)]
pub struct FileNo {
    pub step: u32,
    pub part: u64,
}
