//! The numbers of a level's rows.
ghost use Rattle.std.specs.Prelude.{◌≡◌, ◌≢◌, ℕ, ◌+◌, ◌-◌, ◌*◌, ◌<◌, ◌≤◌, ◌^◌, ◌==◌, ◌&&◌, nat_lt, cond, true, IsTrue, IfSome, length, map, take, drop, List};
ghost use Rattle.rec_words.specs.Words.{deepest_level, level_numbers};
ghost use Rattle.rec_words.specs.declared.rec.Rec.{Rec};
ghost use Rattle.list_laws.specs.Members.{Has};
ghost use Rattle.run_files.specs.Items.{record_at};
ghost use Rattle.canon_file.specs.Rows.{row_word};
ghost use Rattle.canon_file.specs.Pairs.{differs, word_in};
ghost use Rattle.canon_file.specs.Canon.{numbered};
ghost use Rattle.arc_diagrams.specs.Reducing.{IsRising};
ghost use Rattle.node_file.specs.Nodes.{node_records};
ghost use Rattle.room_reduction.specs.Records.{node_record, row_in, uid_in, became_in, word};
ghost use Rattle.room_reduction.specs.Sources.{sources_in};
ghost use Rattle.room_reduction.specs.Levels.{KeepsSources, Names, IsNumbering, distinct_rows};

use crate::sources::{BECAME, put_source_word};
use rec_words::{Ptr, Rec};

/// How many rows of a level have a number, and the last of them.
#[derive(Clone, Copy)]
struct Numbered {
    count: usize,
    low: u64,
    high: u64,
}

/// Puts the nodes of a level's rows in front of these, says to the source of each row what it became, and answers how
/// many nodes there are.
pub(crate) fn number_rows(
    level: u16,
    rows: &mut [Rec],
    sources: &mut [Rec],
    total: usize,
) -> Option<usize>
    requires level { level ≤ deepest_level }
    requires many { total ≤ 4 * length sources.old }
    requires few { length rows.old ≤ 2 ^ 17 }
    ensures within { IfSome result (λ count. count ≤ length rows.old) }
    ensures same { KeepsSources (sources_in total sources.old) (sources_in total sources.new) }
    ensures nodes { IfSome result (λ count.
        take count rows.new ≡ node_records (numbered level 0 (distinct_rows rows.old))) }
    ensures names { IfSome result (λ count. IsRising (map row_in rows.old) → (f : ℕ → ℕ) →
        ((r : Rec) → Has r rows.old → word_in level (distinct_rows rows.old) (row_in r)
        ≡ f (uid_in (record_at (sources_in total sources.old) (word 2 r)))) →
        Names f rows.old (sources_in total sources.old) (sources_in total sources.new)) }
{
    let mut done = Numbered {
        count: 0,
        low: 0,
        high: 0,
    };
    for place in 0..rows.len() {
        let row = rows[place];
        done = number_row(level, &row, rows, done);
        if !name_source(row.w[2], name_of(level, &row, done), sources, total) {
            return None;
        }
    }
    Some(done.count)
}

// Puts the node of a row behind the others, where it is a new one.
fn number_row(level: u16, row: &Rec, rows: &mut [Rec], done: Numbered) -> Numbered
    requires level { level ≤ deepest_level }
    requires few { length rows.old ≤ 2 ^ 17 }
    requires within { done.count < length rows.old }
    ensures within { result.count ≤ done.count + 1 }
    ensures rest { drop (done.count + 1) rows.new ≡ drop (done.count + 1) rows.old }
    ensures more { (first : List Rec) (place : ℕ) → place < length first → row.now ≡ record_at first place →
        IsNumbering level first place done.count (record { low = done.low; high = done.high }) rows.old →
        IsNumbering level first (place + 1) result.count (record { low = result.low; high = result.high }) rows.new }
    ensures some { differs (row_in row.now) ≡ true → 0 < result.count }
    ensures low { differs (row_in row.now) ≡ true → result.low ≡ word 0 row.now }
    ensures high { differs (row_in row.now) ≡ true → result.high ≡ word 1 row.now }
{
    if row.w[0] == row.w[1] || is_last(row, done) {
        return done;
    }
    rows[done.count] = node_with(row, level, done.count as u64);
    Numbered {
        count: done.count + 1,
        low: row.w[0],
        high: row.w[1],
    }
}

// Whether a row is the one that was numbered last.
fn is_last(row: &Rec, done: Numbered) -> bool
    ensures { result ≡ nat_lt 0 done.count && ((done.low == word 0 row.now) && (done.high == word 1 row.now)) }
{
    done.count > 0 && (done.low == row.w[0] && done.high == row.w[1])
}

// The node of the row at a place of a level.
fn node_with(row: &Rec, level: u16, place: u64) -> Rec
    requires level { level ≤ deepest_level }
    requires place { place < level_numbers }
    ensures { result ≡ node_record (row_word level place) (row_in row.now) }
{
    let word = Ptr::of_row(level, place).word();
    Rec {
        w: [word, row.w[0], row.w[1], 0, 0, 0, 0, 0],
    }
}

// What the source of a row becomes, where so many rows have a number and it has that of the last.
fn name_of(level: u16, row: &Rec, done: Numbered) -> u64
    requires level { level ≤ deepest_level }
    requires few { done.count ≤ 2 ^ 17 }
    ensures { result ≡ cond (differs (row_in row.now)) (row_word level (done.count - 1)) (word 0 row.now) }
{
    if row.w[0] == row.w[1] {
        row.w[0]
    } else {
        Ptr::of_row(level, (done.count as u64).saturating_sub(1)).word()
    }
}

// Says to the source at a place what it became.
fn name_source(place: u64, name: u64, sources: &mut [Rec], total: usize) -> bool
    requires many { total ≤ 4 * length sources.old }
    ensures same { KeepsSources (sources_in total sources.old) (sources_in total sources.new) }
    ensures name { IsTrue result → became_in (record_at (sources_in total sources.new) place) ≡ name }
    ensures others { (k : ℕ) → k ≢ place →
        became_in (record_at (sources_in total sources.new) k)
        ≡ became_in (record_at (sources_in total sources.old) k) }
{
    if place >= total as u64 {
        return false;
    }
    put_source_word(sources, total, place as usize, BECAME, name)
}
