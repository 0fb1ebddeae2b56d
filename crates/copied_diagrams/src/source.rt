use node_file::Trailer;
use shelf_model::FileNo;

/// The file of a diagram, and its trailer.
#[derive(Clone, Copy, Debug, PartialEq, Eq)]
pub struct Source {
    pub from: FileNo,
    pub trailer: Trailer,
}
