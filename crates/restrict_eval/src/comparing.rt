use rec_words::Node;

/// How far a comparison of two files has come.
#[derive(Clone, Copy, Debug, PartialEq, Eq)]
pub(crate) enum Comparing {
    /// As many nodes of one file as of the other were read, and they are the same.
    Level,
    /// One more of the first file was read.
    Ahead(Node),
    /// Whether the two files have the same nodes.
    Answered(bool),
}
