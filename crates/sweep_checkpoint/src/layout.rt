//! The bytes of a checkpoint.
//!
//! A checkpoint has 16,384 bytes, in words of eight, the highest byte first: six words in front (step number, sweep,
//! turns, next part number, budget, number of tables in use), the 250 words that the sweep carries, nine tables of 64
//! slots, each of three words (part, next, end), and 64 words 0.
ghost use Rattle.std.specs.Prelude.{◌≡◌, ◌+◌, ◌*◌, ◌≤◌, ◌++◌, length, drop};
ghost use Rattle.std.specs.List.{flat_map};
ghost use Rattle.sweep_checkpoint.specs.Points.{words_bytes, table_bytes, used_bytes, point_bytes, point_size, tables_end, Fits, AreWords, AreRuns, AreTables};

use crate::blank::blank;
use run_tiers::Run;
use sweep_core::Checkpoint;

/// The bytes of a checkpoint.
pub const POINT_SIZE: usize = 16_384;

/// The bytes of the six words in front.
pub(crate) const HEAD_END: usize = 48;

/// Where the words that the sweep carries end, and the tables begin.
pub(crate) const CARRY_END: usize = 2_048;

/// Where the tables end.
pub(crate) const TABLES_END: usize = 15_872;

/// The bytes of a slot.
pub(crate) const SLOT_SIZE: usize = 24;

/// The bytes of a table.
pub(crate) const TABLE_SIZE: usize = 1_536;

// Puts words at the front of the bytes.
fn put_words(words: &[u64], bytes: &mut [u8])
    requires room { 8 * length words.now ≤ length bytes.old }
    ensures bytes { bytes.new ≡ words_bytes words.now ++ drop (8 * length words.now) bytes.old }
    ensures words { AreWords words.now }
{
    for k in 0..words.len() {
        let word = words[k];
        bytes[8 * k..8 * k + 8].copy_from_slice(&word.to_be_bytes());
    }
}

// Puts the slots of a table at the front of the bytes.
fn put_table(table: &[Run], bytes: &mut [u8])
    requires room { 24 * length table.now ≤ length bytes.old }
    ensures bytes { bytes.new ≡ table_bytes table.now ++ drop (24 * length table.now) bytes.old }
    ensures runs { AreRuns table.now }
{
    for k in 0..table.len() {
        let run = table[k];
        put_words(
            &[run.part, run.next, run.end],
            &mut bytes[SLOT_SIZE * k..SLOT_SIZE * k + SLOT_SIZE],
        );
    }
}

// Puts tables at the front of the bytes.
fn put_tables(tables: &[[Run; 64]], bytes: &mut [u8])
    requires room { 1536 * length tables.now ≤ length bytes.old }
    ensures bytes { bytes.new ≡ flat_map table_bytes tables.now ++ drop (1536 * length tables.now) bytes.old }
    ensures tables { AreTables tables.now }
{
    for k in 0..tables.len() {
        let table = tables[k];
        put_table(
            &table,
            &mut bytes[TABLE_SIZE * k..TABLE_SIZE * k + TABLE_SIZE],
        );
    }
}

// Puts a checkpoint at the front of the bytes.
#[tactic(auto, unfolding(crate::specs::Points::used_bytes))]
fn put_point(point: &Checkpoint, bytes: &mut [u8])
    requires { length bytes.old ≡ point_size }
    ensures bytes { bytes.new ≡ used_bytes point.now ++ drop tables_end bytes.old }
    ensures fits { Fits point.now }
{
    let head = [
        u64::from(point.step),
        u64::from(point.sweep),
        point.turns,
        point.next_part,
        u64::from(point.budget),
        u64::from(point.tables),
    ];
    put_words(&head, &mut bytes[0..HEAD_END]);
    put_words(&point.carry, &mut bytes[HEAD_END..CARRY_END]);
    put_tables(&point.runs, &mut bytes[CARRY_END..TABLES_END]);
}

/// The bytes of a checkpoint.
#[tactic(auto, unfolding(crate::specs::Points::point_bytes, crate::specs::Points::blank_bytes))]
pub fn bytes_of(point: &Checkpoint) -> [u8; POINT_SIZE]
    ensures bytes { result ≡ point_bytes point.now }
    ensures len { length result ≡ point_size }
    ensures fits { Fits point.now }
{
    let mut bytes = blank();
    put_point(point, &mut bytes);
    bytes
}
