use table_work::TableSweep;
use top_down_sweep::Restricted;

/// The restriction of a variable of a diagram to a value, level by level from the root down. It makes the arcs of a
/// diagram that isn't reduced.
///
/// After a refusal it isn't used again.
pub type RestrictSweep<'r> = TableSweep<'r, Restricted>;
