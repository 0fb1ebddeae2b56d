//! The files of a step, by their parts.
ghost use Rattle.std.specs.Prelude.{◌≡◌};
ghost use Rattle.file_numbers.specs.Files.{node_file, checkpoint_file, checkpoint_gate, inner_file, ends_file};

use shelf_model::FileNo;

/// The node file.
pub const NODES_PART: u64 = 0;

/// The checkpoints.
pub const CHECKPOINT_PART: u64 = 1;

/// The gate that counts them.
pub const CHECKPOINT_GATE_PART: u64 = 2;

/// The arcs to nodes. A step that sweeps writes them first, where it has such arcs.
pub const INNER_PART: u64 = 3;

/// The arcs to truth values.
pub const ENDS_PART: u64 = 4;

/// The first run. Later runs have the parts behind it.
pub const FIRST_RUN_PART: u64 = 5;

/// The node file of a step's diagram.
pub fn node_file(step: u32) -> FileNo
    ensures { result ≡ node_file step }
{
    FileNo {
        step,
        part: NODES_PART,
    }
}

/// The checkpoints of a step.
pub fn checkpoint_file(step: u32) -> FileNo
    ensures { result ≡ checkpoint_file step }
{
    FileNo {
        step,
        part: CHECKPOINT_PART,
    }
}

/// The gate that counts a step's checkpoints.
pub fn checkpoint_gate(step: u32) -> FileNo
    ensures { result ≡ checkpoint_gate step }
{
    FileNo {
        step,
        part: CHECKPOINT_GATE_PART,
    }
}

/// A step's arcs to nodes.
pub fn inner_file(step: u32) -> FileNo
    ensures { result ≡ inner_file step }
{
    FileNo {
        step,
        part: INNER_PART,
    }
}

/// A step's arcs to truth values.
pub fn ends_file(step: u32) -> FileNo
    ensures { result ≡ ends_file step }
{
    FileNo {
        step,
        part: ENDS_PART,
    }
}
