//! The rules that a node of a file keeps.
ghost use Rattle.std.specs.Prelude.{◌≡◌, ◌≤◌, nat_lt};
ghost use Rattle.rec_words.specs.Words.{deepest_level, level_of};
ghost use Rattle.node_file.specs.Nodes.{is_sound};

use rec_words::{Node, Ptr};

/// Whether a node's level is that of one of n variables, and its two pointers differ, each a truth value or
/// a node of a deeper level.
pub(crate) fn is_sound_node(node: &Node, n: u32) -> bool
    ensures { result ≡ is_sound n node.now }
{
    let Some(level) = node.uid.ptr().level() else {
        return false;
    };
    u32::from(level) < n
        && node.low.word() != node.high.word()
        && is_deeper(node.low, level)
        && is_deeper(node.high, level)
}

// Whether a pointer is a truth value or a node of a deeper level.
fn is_deeper(child: Ptr, level: u16) -> bool
    requires { level ≤ deepest_level }
    ensures { result ≡ nat_lt level (level_of child) }
{
    match child.level() {
        Some(deeper) => level < deeper,
        None => true,
    }
}
