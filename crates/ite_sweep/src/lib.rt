//! The sweep that makes a diagram of the choice between two by a third.
#![tactic(auto)]

use table_work::TableSweep;
use top_down_sweep::Choice;

/// The choice between two diagrams by a third, level by level from the roots down. It makes the arcs of a diagram that
/// isn't reduced.
///
/// After a refusal it isn't used again.
pub type IteSweep<'r> = TableSweep<'r, Choice>;
