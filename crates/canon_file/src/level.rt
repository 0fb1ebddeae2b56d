//! One level of a diagram, made of the pointers of the next one.
ghost use Rattle.std.specs.Prelude.{◌≡◌, ◌<◌, ◌≤◌, ◌++◌, true, [], ◌∷◌, length, map, filter, IfOk, OnOk};
ghost use Rattle.std.specs.Int.{w64, to_be_bytes};
ghost use Rattle.rec_words.specs.Words.{deepest_level, level_numbers};
ghost use Rattle.list_laws.specs.Members.{Has, ascending, put, IsAscending};
ghost use Rattle.canon_file.specs.Rows.{row_before, place_of};
ghost use Rattle.canon_file.specs.Canon.{numbered, node_bytes};
ghost use Rattle.canon_file.specs.Pairs.{pairs, differs, distinct_rows, word_in, words_above};

use crate::Row;
use rec_words::Ptr;
use std::alloc::{AllocError, Global};

/// Adds the nodes of a level to the bytes, and gives the pointers of the level's pieces.
pub fn add_level(
    alloc: Global,
    level: u16,
    pointers: &[Ptr],
    bytes: &mut Vec<u8>,
) -> Result<Vec<Ptr>, AllocError>
    requires level { level ≤ deepest_level }
    requires few { length pointers.now ≤ level_numbers }
    ensures pointers { IfOk result (λ above. above.items ≡ words_above level pointers.now) }
    ensures nodes { OnOk result (bytes.new.items ≡ bytes.old.items ++ node_bytes
        (numbered level 0 (distinct_rows pointers.now))) }
{
    let pairs = pairs_of(alloc, pointers)?;
    let rows = rows_of(alloc, pairs.as_slice())?;
    add_nodes(level, rows.as_slice(), bytes)?;
    pointers_of(alloc, level, pairs.as_slice(), rows.as_slice())
}

/// Each two neighbours as a pair.
fn pairs_of(alloc: Global, pointers: &[Ptr]) -> Result<Vec<Row>, AllocError>
    ensures { IfOk result (λ rows. rows.items ≡ pairs pointers.now) }
{
    let mut rows = Vec::new(alloc);
    for k in 0..pointers.len() / 2 {
        rows.push(Row {
            low: pointers[2 * k],
            high: pointers[2 * k + 1],
        })?;
    }
    Ok(rows)
}

/// The pairs of different pointers, ascending, each once.
fn rows_of(alloc: Global, pairs: &[Row]) -> Result<Vec<Row>, AllocError>
    ensures { IfOk result (λ rows. rows.items ≡ ascending row_before (filter differs pairs.now)) }
{
    let mut rows = Vec::new(alloc);
    for pair in pairs.iter().copied().rev() {
        if pair.low != pair.high {
            put_row(&mut rows, pair)?;
        }
    }
    Ok(rows)
}

/// Puts a row among ascending rows, unless it is there.
fn put_row(rows: &mut Vec<Row>, row: Row) -> Result<(), AllocError>
    requires { IsAscending row_before rows.old.items }
    ensures { OnOk result (rows.new.items ≡ put row_before row rows.old.items) }
{
    if let Err(place) = rows.as_slice().binary_search(&row) {
        rows.insert(place, row)?;
    }
    Ok(())
}

/// Adds the nodes of a level's rows to the bytes.
fn add_nodes(level: u16, rows: &[Row], bytes: &mut Vec<u8>) -> Result<(), AllocError>
    requires level { level ≤ deepest_level }
    requires few { length rows.now ≤ level_numbers }
    ensures { OnOk result (bytes.new.items ≡ bytes.old.items ++ node_bytes (numbered level 0 rows.now)) }
{
    for (k, row) in rows.iter().enumerate() {
        add_node(Ptr::of_row(level, k as u64), *row, bytes)?;
    }
    Ok(())
}

/// Adds one node to the bytes.
fn add_node(uid: Ptr, row: Row, bytes: &mut Vec<u8>) -> Result<(), AllocError>
    ensures { OnOk result (bytes.new.items ≡ bytes.old.items ++ node_bytes
        (record { uid = uid; low = row.low; high = row.high } ∷ [])) }
{
    add_word(uid.word(), bytes)?;
    add_word(row.low.word(), bytes)?;
    add_word(row.high.word(), bytes)
}

/// Adds a word to the bytes, its highest byte first.
pub fn add_word(word: u64, bytes: &mut Vec<u8>) -> Result<(), AllocError>
    ensures { OnOk result (bytes.new.items ≡ bytes.old.items ++ to_be_bytes w64 word) }
{
    bytes.extend_from_slice(&word.to_be_bytes())
}

/// The pointers of the pieces with these pairs, where the rows of their level are known.
fn pointers_of(
    alloc: Global,
    level: u16,
    pairs: &[Row],
    rows: &[Row],
) -> Result<Vec<Ptr>, AllocError>
    requires level { level ≤ deepest_level }
    requires ascend { IsAscending row_before rows.now }
    requires few { length rows.now ≤ level_numbers }
    requires known { (r : Row) → Has r pairs.now → differs r ≡ true → Has r rows.now }
    ensures { IfOk result (λ pointers. pointers.items ≡ map (word_in level rows.now) pairs.now) }
{
    let mut pointers = Vec::new(alloc);
    for pair in pairs {
        pointers.push(pointer_of(level, *pair, rows))?;
    }
    Ok(pointers)
}

/// The pointer of a piece with this pair.
fn pointer_of(level: u16, pair: Row, rows: &[Row]) -> Ptr
    requires level { level ≤ deepest_level }
    requires ascend { IsAscending row_before rows.now }
    requires few { length rows.now ≤ level_numbers }
    requires known { differs pair ≡ true → Has pair rows.now }
    ensures { result ≡ word_in level rows.now pair }
{
    if pair.low == pair.high {
        return pair.low;
    }
    Ptr::of_row(level, place_in(rows, pair) as u64)
}

/// The place of one of these rows.
fn place_in(rows: &[Row], row: Row) -> usize
    requires ascend { IsAscending row_before rows.now }
    requires known { Has row rows.now }
    ensures place { result ≡ place_of row rows.now }
    ensures below { result < length rows.now }
{
    rows.binary_search(&row).unwrap()
}
