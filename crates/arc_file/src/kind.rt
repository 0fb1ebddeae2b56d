//! The rules that the arcs of a file keep.
ghost use Rattle.std.specs.Prelude.{◌≡◌, ◌⊎◌, true, false, Some, MatchBool, IfSome};
ghost use Rattle.arc_file.specs.declared.arc.Arc.{Arc};
ghost use Rattle.arc_file.specs.Files.{Leads, is_before};

use crate::Arc;

/// Which arcs a file has: those to nodes, or those to truth values.
#[derive(Clone, Copy, Debug, PartialEq, Eq)]
pub enum Kind {
    Inner,
    End,
}

/// Whether an arc may stand in a file, before the arc that is given where one is.
pub(crate) fn may_stand(kind: Kind, arc: &Arc, after: Option<Arc>) -> bool
    ensures { MatchBool result
        (Leads kind arc.now × IfSome after (λ next. is_before kind next arc.now ≡ false))
        ((¬ Leads kind arc.now)
        ⊎ ((next : Arc) × (after ≡ Some next) × (is_before kind next arc.now ≡ true) × Leads kind arc.now)) }
{
    if !leads(kind, arc) {
        return false;
    }
    match after {
        Some(next) => !comes_before(kind, &next, arc),
        None => true,
    }
}

// Whether an inner arc leads to a node that lies deeper than its source, an end arc to a truth value.
fn leads(kind: Kind, arc: &Arc) -> bool
    ensures { MatchBool result (Leads kind arc.now) (¬ Leads kind arc.now) }
{
    match kind {
        Kind::Inner => match (arc.source.ptr().level(), arc.target.level()) {
            (Some(level), Some(deeper)) => level < deeper,
            _ => false,
        },
        Kind::End => arc.target.value().is_some(),
    }
}

// Whether one arc stands before another in the order of a file.
fn comes_before(kind: Kind, one: &Arc, other: &Arc) -> bool
    ensures { result ≡ is_before kind one.now other.now }
{
    match kind {
        Kind::Inner => {
            (one.target, one.source, one.high) < (other.target, other.source, other.high)
        }
        Kind::End => (one.source, one.high) < (other.source, other.high),
    }
}
