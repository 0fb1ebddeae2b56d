use rec_words::Ptr;

/// Up to three pointers, one into the diagram of each operand; a member that isn't used is the truth value 0.
#[derive(Clone, Copy, Debug, PartialEq, Eq)]
pub struct Tuple {
    pub first: Ptr,
    pub second: Ptr,
    pub third: Ptr,
}

/// What is made of a tuple: its function is constant, or that of the tuple that is asked for.
#[derive(Clone, Copy, Debug, PartialEq, Eq)]
pub enum Goal {
    End(bool),
    Go(Tuple),
}
