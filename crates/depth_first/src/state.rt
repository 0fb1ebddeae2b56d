//! Where a node stands in a walk.

ghost use Rattle.std.specs.Prelude.{◌≡◌};
ghost use Rattle.depth_first.specs.Walk.{is_done};

/// Where a node stands in a walk.
#[derive(Clone, Copy, Debug, PartialEq, Eq)]
pub(crate) enum State {
    /// It wasn't entered.
    New,
    /// It is on the way from the root.
    OnWay,
    /// It was left, and stands in the order.
    Done,
}

/// Whether a node was left.
pub(crate) fn is_done(state: State) -> bool
    ensures { result ≡ is_done state }
{
    matches!(state, State::Done)
}
