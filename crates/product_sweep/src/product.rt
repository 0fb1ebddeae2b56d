use table_work::TableSweep;
use top_down_sweep::Product;

/// An operator on two diagrams, level by level from the roots down. It makes the arcs of a diagram that isn't reduced.
///
/// After a refusal it isn't used again.
pub type ProductSweep<'r> = TableSweep<'r, Product>;
