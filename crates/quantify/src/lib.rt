//! The sweep that makes a diagram of a quantifier over a variable.
#![tactic(auto)]

use table_work::TableSweep;
use top_down_sweep::Quantified;

/// A quantifier over a variable of a diagram, level by level from the root down. It makes the arcs of a diagram that
/// isn't reduced.
///
/// After a refusal it isn't used again.
pub type QuantifySweep<'r> = TableSweep<'r, Quantified>;
