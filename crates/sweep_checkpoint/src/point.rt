//! The checkpoint that bytes are.
ghost use Rattle.std.specs.Prelude.{◌≡◌, ◌+◌, ◌*◌, ◌^◌, ◌<◌, ◌≤◌, length, take, drop, IfSome, Some};
ghost use Rattle.std.specs.Int.{w64, to_be_bytes, from_be_bytes};
ghost use Rattle.std.specs.List.{flat_map};
ghost use Rattle.sweep_checkpoint.specs.Points.{words_bytes, run_bytes, table_bytes, AreWords, AreRuns, AreTables, AreThree, IsTable};
ghost use Rattle.sweep_checkpoint.specs.Rules.{IsPointOf};

use crate::blank::NO_RUN;
use crate::layout::{CARRY_END, HEAD_END, POINT_SIZE, SLOT_SIZE, TABLE_SIZE, TABLES_END};
use crate::rules::keeps_tables;
use run_tiers::Run;
use sweep_core::Checkpoint;

/// The most parts of a step.
const MOST_PARTS: u64 = 1 << 32;

/// A number of records has 32 bits.
const MOST_RECORDS: u64 = (1 << 32) - 1;

/// The turns of a step are fewer.
const TURNS_END: u64 = 1 << 62;

// The number in eight bytes from a place on.
fn number_at(bytes: &[u8], at: usize) -> u64
    requires { at + 8 ≤ length bytes.now }
    ensures { result ≡ from_be_bytes w64 (take 8 (drop at bytes.now)) }
{
    let word = &bytes[at..at + 8];
    u64::from_be_bytes([
        word[0], word[1], word[2], word[3], word[4], word[5], word[6], word[7],
    ])
}

// The word that eight bytes from a place on are those of.
fn word_at(bytes: &[u8], at: usize) -> u64
    requires { at + 8 ≤ length bytes.now }
    ensures bytes { to_be_bytes w64 result ≡ take 8 (drop at bytes.now) }
    ensures range { result < 2 ^ 64 }
{
    number_at(bytes, at)
}

// Reads as many words as there is room for.
fn read_words(bytes: &[u8], words: &mut [u64])
    requires { length bytes.now ≡ 8 * length words.old }
    ensures bytes { words_bytes words.new ≡ bytes.now }
    ensures words { AreWords words.new }
{
    for k in 0..words.len() {
        words[k] = word_at(bytes, 8 * k);
    }
}

// The run of a slot.
fn run_at(bytes: &[u8], at: usize) -> Run
    requires { at + 24 ≤ length bytes.now }
    ensures bytes { run_bytes result ≡ take 24 (drop at bytes.now) }
    ensures words { AreThree result }
{
    Run {
        part: word_at(bytes, at),
        next: word_at(bytes, at + 8),
        end: word_at(bytes, at + 16),
    }
}

// Reads as many slots as there is room for.
fn read_table(bytes: &[u8], table: &mut [Run])
    requires { length bytes.now ≡ 24 * length table.old }
    ensures bytes { table_bytes table.new ≡ bytes.now }
    ensures runs { AreRuns table.new }
{
    for k in 0..table.len() {
        table[k] = run_at(bytes, SLOT_SIZE * k);
    }
}

// A table of runs.
fn table_of(bytes: &[u8]) -> [Run; 64]
    requires { length bytes.now ≡ 1536 }
    ensures bytes { table_bytes result ≡ bytes.now }
    ensures table { IsTable result }
{
    let mut table = [NO_RUN; 64];
    read_table(bytes, &mut table);
    table
}

// Reads as many tables as there is room for.
fn read_tables(bytes: &[u8], tables: &mut [[Run; 64]])
    requires { length bytes.now ≡ 1536 * length tables.old }
    ensures bytes { flat_map table_bytes tables.new ≡ bytes.now }
    ensures tables { AreTables tables.new }
{
    for k in 0..tables.len() {
        tables[k] = table_of(&bytes[TABLE_SIZE * k..TABLE_SIZE * k + TABLE_SIZE]);
    }
}

/// The checkpoint that the bytes are, where they keep the rules for a step. It takes no memory.
///
/// What stands behind the tables, and in words and tables that aren't in use, is not looked at.
pub fn point_of(bytes: &[u8; POINT_SIZE], step: u32) -> Option<Checkpoint>
    ensures found { IfSome result (IsPointOf step bytes.now) }
    ensures only { (c : Checkpoint) → IsPointOf step bytes.now c → result ≡ Some c }
{
    let mut head = [0u64; 6];
    read_words(&bytes[..HEAD_END], &mut head);
    let [number, sweep, turns, next_part, records, tables] = head;
    if number != u64::from(step) || records > MOST_RECORDS {
        return None;
    }
    if sweep > 1 || next_part < 3 || next_part > MOST_PARTS || tables > 9 || turns >= TURNS_END {
        return None;
    }
    let mut point = Checkpoint {
        step,
        sweep: sweep as u32,
        turns,
        next_part,
        budget: records as u32,
        tables: tables as u32,
        carry: [0; 250],
        runs: [[NO_RUN; 64]; 9],
    };
    read_words(&bytes[HEAD_END..CARRY_END], &mut point.carry);
    read_tables(&bytes[CARRY_END..TABLES_END], &mut point.runs);
    if keeps_tables(&point.runs[..tables as usize], next_part) {
        Some(point)
    } else {
        None
    }
}
