//! Which edge of a node is followed next.

ghost use Rattle.std.specs.Prelude.{◌≡◌, ◌+◌, ◌<◌, ◌^◌};
ghost use Rattle.depth_first.specs.Jumps.{jump_at};
ghost use Rattle.depth_first.specs.Views.{graph_of};

/// The place of the edge that is followed behind the one at a place: where the jumps lead, and the next where none
/// is noted.
pub fn jump(jumps: &[Vec<u32>], node: u32, place: usize) -> usize
    requires { place + 1 < 2 ^ 64 }
    ensures { result ≡ jump_at (graph_of jumps.now) node place }
{
    let noted = match jumps.get(node as usize) {
        Some(list) => list.get(place).copied(),
        None => None,
    };
    match noted {
        Some(next) => next as usize,
        None => place + 1,
    }
}
