//! The end of a node file.
ghost use Rattle.std.specs.Prelude.{◌≡◌, ℕ, ◌+◌, ◌-◌, ◌*◌, ◌/◌, ◌≤◌, min, IsTrue, IfOk, IfErr, IfSome, IfNone, length, slice_index_or};
ghost use Rattle.shelf_model.specs.World.{file};
ghost use Rattle.shelf_model.specs.Calls.{Told, longest};
ghost use Rattle.shelf_model.specs.Faults.{OnlyShelf};
ghost use Rattle.rec_words.specs.Words.{node_size};
ghost use Rattle.rec_words.specs.declared.rec.Rec.{Rec};
ghost use Rattle.block_stream.specs.Reads.{Looked, IsDamageOf};
ghost use Rattle.node_file.specs.Nodes.{IsRoot, IsTrailer, HasTrailer, IsTrailerDamage};

use block_stream::load;
use rec_words::{NODE_SIZE, Node, Ptr, Rec, Spill};
use shelf_model::{FileNo, Shelf, StreamFault};

/// What ends a node file: the root, how many nodes there are, and how many variables.
#[derive(Clone, Copy, Debug, PartialEq, Eq)]
pub struct Trailer {
    pub root: Ptr,
    pub count: u64,
    pub n: u32,
}

/// Reads the trailer of a file for n variables. The window is used for it.
pub(crate) fn read_trailer<S: Shelf>(
    f: FileNo,
    n: u32,
    window: &mut [Rec],
    shelf: &mut S,
) -> Result<Trailer, StreamFault>
    requires room { 8 ≤ length window.old }
    ensures fits { IfOk result (λ t. t.count * node_size ≤ longest) }
    ensures variables { IfOk result (λ t. t.n ≡ n) }
    ensures count { IfOk result (λ t. IsTrue (S.tells shelf.new) →
        t.count ≡ length (file (S.world shelf.old) f).bytes / node_size - 1) }
    ensures root { IfOk result (λ t. IsRoot t.count t.root) }
    ensures trailer { IfOk result (λ t. IsTrue (S.tells shelf.new) →
        HasTrailer n t.root (file (S.world shelf.old) f).bytes) }
    ensures damage { IfErr result (IsDamageOf f) }
    ensures damaged { IfErr result (λ e. IsTrue (S.tells shelf.new) →
        IsTrailerDamage n (file (S.world shelf.old) f).bytes e) }
    ensures content { Told S.tells shelf.old shelf.new (Looked 2 (S.world shelf.old) (S.world shelf.new)) }
    ensures faults { OnlyShelf (S.faults shelf.old) (S.faults shelf.new) result }
{
    let len = shelf.len(f)?;
    let damage = StreamFault::Damaged {
        file: f,
        at: len.saturating_sub(NODE_SIZE),
    };
    let end = len / NODE_SIZE;
    if end == 0 || end * NODE_SIZE != len {
        return Err(damage);
    }
    let wanted = end.min(2) as usize;
    let loaded = load(f, Node::WORDS, end - wanted as u64, wanted, window, shelf)?;
    if loaded < wanted {
        return Err(damage);
    }
    match trailer_of(window[wanted - 1], window[0], end - 1, n) {
        Some(trailer) => Ok(trailer),
        None => Err(damage),
    }
}

// What a record says as the trailer of a file of so many nodes, the last of which is in another record.
fn trailer_of(trailer: Rec, last: Rec, count: u64, n: u32) -> Option<Trailer>
    ensures found { IfSome result (λ t. IsTrailer n count t.root trailer last) }
    ensures count { IfSome result (λ t. t.count ≡ count) }
    ensures root { IfSome result (λ t. IsRoot t.count t.root) }
    ensures variables { IfSome result (λ t. t.n ≡ n) }
    ensures none { IfNone result ((root : ℕ) → ¬ IsTrailer n count root trailer last) }
{
    let root = Ptr::from_word(trailer.w[0])?;
    if trailer.w[1] != count || trailer.w[2] != u64::from(n) {
        return None;
    }
    let is_node = root.level().is_some();
    if is_node != (count > 0) || (is_node && last.w[0] != root.word()) {
        return None;
    }
    Some(Trailer { root, count, n })
}
