//! Laws of node files, each the contract of a function that does nothing.
ghost use Rattle.std.specs.Prelude.{ℕ, Bool, List};
ghost use Rattle.canon_file.specs.Canon.{canon_nodes, canon_root, canon_bytes};
ghost use Rattle.canon_file.specs.Laws.{HasForm};
ghost use Rattle.node_file.specs.Nodes.{HasNodes};

/// The canonical file of a table holds the table's nodes and its root, so a reader gives these and finds no damage.
pub fn canonical_files_are_read()
    ensures { (n : ℕ) (t : List Bool) → HasForm n t → HasNodes n (canon_root n t) (canon_nodes n t) (canon_bytes n t) }
{}
