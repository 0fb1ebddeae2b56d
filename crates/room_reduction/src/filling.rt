//! The filling of the room with the sources of a diagram, from its two files of arcs.
ghost use Rattle.std.specs.Prelude.{◌≡◌, ◌≢◌, ℕ, ◌+◌, ◌*◌, ◌^◌, ◌<◌, ◌≤◌, not, List, ◌∷◌, ◌++◌, length, IsTrue, IfOk, IfErr, IfSome};
ghost use Rattle.shelf_model.specs.World.{file};
ghost use Rattle.shelf_model.specs.Calls.{Told};
ghost use Rattle.shelf_model.specs.Faults.{OnlyShelf};
ghost use Rattle.block_stream.specs.Reads.{Looked};
ghost use Rattle.block_stream.specs.Forwards.{reading_of};
ghost use Rattle.arc_file.specs.declared.arc.Arc.{Arc};
ghost use Rattle.arc_file.specs.declared.kind.Kind.TheVariants.{Inner, End};
ghost use Rattle.arc_file.specs.Files.{HasArcs, BeginWith};
ghost use Rattle.arc_diagrams.specs.Arcs.{IsComplete, IsMet};
ghost use Rattle.packed_records.specs.Packed.{packed};
ghost use Rattle.run_files.specs.Items.{record_at};
ghost use Rattle.room_reduction.specs.Records.{uid_in};
ghost use Rattle.room_reduction.specs.Sources.{sources_in, AreSources};
ghost use Rattle.room_reduction.specs.Filling.{word_on, AreMet, StillGives, GivesNext};

use crate::index::{Index, put_begin};
use crate::sources::{HIGH, LOW, UID, find};
use arc_file::{Arc, Unreduced};
use block_stream::Forward;
use packed_records::{put_record, put_word, word_at};
use rec_words::{LEVEL_NUMBERS, Ptr, Rec};
use shelf_model::{FileNo, Shelf, StreamFault};

/// The arcs of a file: which file, and how many they are.
#[derive(Clone, Copy)]
struct ArcsOf {
    file: FileNo,
    count: u64,
}

/// Puts the sources of a diagram into the room, each with its two targets, and answers how many there are. None is
/// answered where the two files aren't those of a diagram's arcs, or have more sources than there are records.
pub(crate) fn read_sources<S: Shelf>(
    n: u32,
    made: &Unreduced,
    sources: &mut [Rec],
    firsts: &mut [Rec],
    window: &mut [Rec],
    shelf: &mut S,
) -> Result<Option<usize>, StreamFault>
    requires few { made.now.inner_count + made.now.ends_count ≤ 2 ^ 18 }
    requires window { 8 ≤ length window.old }
    ensures within { IfOk result (λ found. IfSome found (λ count. count ≤ 4 * length sources.new)) }
    ensures read { IfOk result (λ found. IsTrue (S.tells shelf.new) → (inner ends : List Arc) →
        HasArcs Inner inner made.now.inner_count (file (S.world shelf.old) made.now.inner).bytes →
        HasArcs End ends made.now.ends_count (file (S.world shelf.old) made.now.ends).bytes →
        IsComplete n made.now.root (inner ++ ends) → IfSome found (λ count.
        AreSources n made.now.root (inner ++ ends) (sources_in count sources.new))) }
    ensures cause { IfErr result (λ e. e ≡ StreamFault.Shelf) }
    ensures content { Told S.tells shelf.old shelf.new
        (Looked (made.now.inner_count + made.now.ends_count + 2) (S.world shelf.old) (S.world shelf.new)) }
    ensures faults { OnlyShelf (S.faults shelf.old) (S.faults shelf.new) result }
{
    let root = made.root;
    let Some(begun) = meet(n, root, sources, 0, firsts) else {
        return Ok(None);
    };
    let of_inner = ArcsOf {
        file: made.inner,
        count: made.inner_count,
    };
    let inner = read_arcs(n, of_inner, sources, begun, firsts, window, shelf)?;
    let Some(found) = inner else {
        return Ok(None);
    };
    let of_ends = ArcsOf {
        file: made.ends,
        count: made.ends_count,
    };
    read_arcs(n, of_ends, sources, found, firsts, window, shelf)
}

// Goes on with the arcs of a file, where so many sources were found, and answers how many are found then.
fn read_arcs<S: Shelf>(
    n: u32,
    from: ArcsOf,
    sources: &mut [Rec],
    before: usize,
    firsts: &mut [Rec],
    window: &mut [Rec],
    shelf: &mut S,
) -> Result<Option<usize>, StreamFault>
    requires few { from.count ≤ 2 ^ 18 }
    requires window { 8 ≤ length window.old }
    requires within { before ≤ 4 * length sources.old }
    ensures within { IfOk result (λ found. IfSome found (λ k. k ≤ 4 * length sources.new)) }
    ensures read { IfOk result (λ found. IsTrue (S.tells shelf.new) → (root : ℕ) (all these left : List Arc) →
        BeginWith these from.count (file (S.world shelf.old) from.file).bytes →
        AreMet n root all (these ++ left) (packed sources.old) before →
        IfSome found (AreMet n root all left (packed sources.new))) }
    ensures cause { IfErr result (λ e. e ≡ StreamFault.Shelf) }
    ensures content { Told S.tells shelf.old shelf.new (Looked from.count (S.world shelf.old) (S.world shelf.new)) }
    ensures faults { OnlyShelf (S.faults shelf.old) (S.faults shelf.new) result }
{
    let mut arcs = Forward::<Arc>::start(from.file, 0, from.count, window);
    let mut found = before;
    for _arc in 0..from.count {
        let Some(arc) = next_arc(&mut arcs, shelf)? else {
            return Ok(None);
        };
        let Some(now) = take_arc(n, arc, sources, found, firsts) else {
            return Ok(None);
        };
        found = now;
    }
    Ok(Some(found))
}

// The next arc of a file. None is answered too where it is damaged.
fn next_arc<S: Shelf>(arcs: &mut Forward<Arc>, shelf: &mut S) -> Result<Option<Arc>, StreamFault>
    ensures file { (reading_of arcs.new).file ≡ (reading_of arcs.old).file }
    ensures next { IsTrue (S.tells shelf.new) → (xs : List Arc) →
        let bytes = (file (S.world shelf.old) (reading_of arcs.old).file).bytes in
        StillGives arcs.old bytes xs → IfOk result (λ next. IfSome next (GivesNext arcs.new bytes xs)) }
    ensures cause { IfErr result (λ e. e ≡ StreamFault.Shelf) }
    ensures content { Told S.tells shelf.old shelf.new (Looked 1 (S.world shelf.old) (S.world shelf.new)) }
    ensures faults { OnlyShelf (S.faults shelf.old) (S.faults shelf.new) result }
{
    match arcs.next(shelf) {
        Ok(next) => Ok(next),
        Err(StreamFault::Shelf) => Err(StreamFault::Shelf),
        Err(StreamFault::Damaged { .. }) => Ok(None),
    }
}

// Adds the target of an arc, where it is a node that wasn't added, and puts it into the record of the arc's source.
fn take_arc(
    n: u32,
    arc: Arc,
    sources: &mut [Rec],
    found: usize,
    firsts: &mut [Rec],
) -> Option<usize>
    requires within { found ≤ 4 * length sources.old }
    ensures within { IfSome result (λ k. k ≤ 4 * length sources.new) }
    ensures taken { IfSome result (λ k. (root : ℕ) (all left : List Arc) →
        AreMet n root all (arc ∷ left) (packed sources.old) found → AreMet n root all left (packed sources.new) k) }
{
    let now = meet(n, arc.target, sources, found, firsts)?;
    if !put_target(arc, sources, now, firsts) {
        return None;
    }
    Some(now)
}

// Adds a node behind the sources that were found, unless it is the last of them. It ends where the node isn't greater.
fn meet(
    n: u32,
    pointer: Ptr,
    sources: &mut [Rec],
    found: usize,
    firsts: &mut [Rec],
) -> Option<usize>
    requires within { found ≤ 4 * length sources.old }
    ensures within { IfSome result (λ k. k ≤ 4 * length sources.new) }
    ensures met { IfSome result (λ k. (root : ℕ) (all left : List Arc) → IsMet root all pointer →
        AreMet n root all left (packed sources.old) found → AreMet n root all left (packed sources.new) k) }
{
    if pointer.level().is_none() {
        return Some(found);
    }
    let source = pointer.word();
    if found > 0 && word_at(sources, found - 1, UID) == source {
        return Some(found);
    }
    if add_source(n, source, sources, found, firsts) {
        Some(found + 1)
    } else {
        None
    }
}

// Puts a source behind those that were found, where it is greater and there is room.
fn add_source(n: u32, source: u64, sources: &mut [Rec], found: usize, firsts: &mut [Rec]) -> bool
    requires within { found ≤ 4 * length sources.old }
    ensures within { IsTrue result → found < 4 * length sources.new }
    ensures added { IsTrue result → (root : ℕ) (all left : List Arc) → IsMet root all source →
        AreMet n root all left (packed sources.old) found → AreMet n root all left (packed sources.new) (found + 1) }
{
    let level = source / LEVEL_NUMBERS;
    if found >= 4 * sources.len() || level >= u64::from(n) || level >= firsts.len() as u64 {
        return false;
    }
    if found > 0 && word_at(sources, found - 1, UID) >= source {
        return false;
    }
    if found == 0 || word_at(sources, found - 1, UID) / LEVEL_NUMBERS != level {
        put_begin(&mut firsts[level as usize], found as u64);
    }
    let none = Ptr::terminal(false).word();
    put_record(sources, found, [source, none, none, 0])
}

// Puts the target of an arc into the record of its source, where that is found.
fn put_target(arc: Arc, sources: &mut [Rec], found: usize, firsts: &[Rec]) -> bool
    requires within { found ≤ 4 * length sources.old }
    ensures { IsTrue result → (n root : ℕ) (all left : List Arc) →
        AreMet n root all (arc ∷ left) (packed sources.old) found → AreMet n root all left (packed sources.new) found }
{
    let index = Index {
        levels: firsts,
        total: found,
    };
    let Some(place) = find(sources, index, arc.source.ptr().word()) else {
        return false;
    };
    put_target_on(arc.high, arc.target.word(), sources, place)
}

// Puts a target on one side into the record of a source.
fn put_target_on(high: bool, target: u64, sources: &mut [Rec], place: usize) -> bool
    requires place { place < 4 * length sources.old }
    ensures source { uid_in (record_at (packed sources.new) place) ≡ uid_in (record_at (packed sources.old) place) }
    ensures target { IsTrue result → word_on high (record_at (packed sources.new) place) ≡ target }
    ensures other { word_on (not high) (record_at (packed sources.new) place)
        ≡ word_on (not high) (record_at (packed sources.old) place) }
    ensures others { (k : ℕ) → k ≢ place →
        record_at (packed sources.new) k ≡ record_at (packed sources.old) k }
{
    let column = if high { HIGH } else { LOW };
    put_word(sources, place, column, target)
}
