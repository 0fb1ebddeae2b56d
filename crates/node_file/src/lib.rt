//! Node files: the nodes of a diagram from the deepest level up, and a trailer with the root, the count of
//! nodes and that of the variables.
#![tactic(auto)]

mod copy;
pub mod laws;
mod node;
mod reader;
mod records;
mod trailer;
mod writer;

pub use copy::{copy_file, copy_piece, node_pieces};
pub use reader::NodeReader;
pub use records::{PIECE_NODES, load_nodes};
pub use trailer::Trailer;
pub use writer::NodeWriter;
