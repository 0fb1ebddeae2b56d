//! The diagram of an operator whose table is a constant, that of one operand or its complement: in which way it is
//! made, and the making of a constant and of a copy.
#![tactic(auto)]

mod constant;
mod copy;
mod operand;
mod pair;
mod source;
mod trailers;
mod way;

pub use constant::make_constant;
pub use copy::copy_diagram;
pub use pair::{Pair, read_pair};
pub use source::Source;
pub use way::{Way, way_of};
