//! Records as bytes.
ghost use Rattle.std.specs.Prelude.{◌≡◌, ◌+◌, ◌*◌, ◌≤◌, ◌++◌, length, take, drop};
ghost use Rattle.std.specs.Int.{w64, from_be_bytes};
ghost use Rattle.shelf_model.specs.Calls.{most_piece};
ghost use Rattle.block_stream.specs.Records.{piece_records, record_of, records_of, record_bytes, records_bytes};

use rec_words::Rec;
use shelf_model::PIECE;

/// How many records one call of the folder moves: no more than there is room for, and than a piece has.
#[tactic(auto, unfolding(crate::specs::Records::piece_records))]
pub(crate) fn piece_len(room: usize, words: usize) -> usize
    requires words { (1 ≤ words) × (words ≤ 8) }
    requires room { 8 ≤ room }
    ensures value { result ≡ piece_records words room }
    ensures some { 8 ≤ result }
    ensures in_room { result ≤ room }
    ensures in_piece { result * (8 * words) ≤ most_piece }
{
    room.min(PIECE / 8 / words)
}

// The word of eight bytes from a place on.
fn word_at(bytes: &[u8], at: usize) -> u64
    requires { at + 8 ≤ length bytes.now }
    ensures { result ≡ from_be_bytes w64 (take 8 (drop at bytes.now)) }
{
    let word = &bytes[at..at + 8];
    u64::from_be_bytes([
        word[0], word[1], word[2], word[3], word[4], word[5], word[6], word[7],
    ])
}

// The record with which the bytes begin.
fn read_record(bytes: &[u8], words: usize) -> Rec
    requires words { words ≤ 8 }
    requires whole { 8 * words ≤ length bytes.now }
    ensures { result ≡ record_of words bytes.now }
{
    let mut w = [0; 8];
    for k in 0..words {
        w[k] = word_at(bytes, 8 * k);
    }
    Rec { w }
}

/// Puts the records with which the bytes begin at the front of the window.
pub(crate) fn read_records(bytes: &[u8], words: usize, count: usize, window: &mut [Rec])
    requires words { words ≤ 8 }
    requires whole { count * (8 * words) ≤ length bytes.now }
    requires room { count ≤ length window.old }
    ensures { take count window.new ≡ records_of words count bytes.now }
{
    for i in 0..count {
        window[i] = read_record(&bytes[i * (8 * words)..], words);
    }
}

// Puts the first words of a record at the front of the bytes.
fn write_record(record: &Rec, words: usize, bytes: &mut [u8])
    requires words { words ≤ 8 }
    requires room { 8 * words ≤ length bytes.old }
    ensures { bytes.new ≡ record_bytes words record.now ++ drop (8 * words) bytes.old }
{
    for k in 0..words {
        bytes[8 * k..8 * k + 8].copy_from_slice(&record.w[k].to_be_bytes());
    }
}

/// Puts records at the front of the bytes.
pub(crate) fn write_records(records: &[Rec], words: usize, bytes: &mut [u8])
    requires words { words ≤ 8 }
    requires room { length records.now * (8 * words) ≤ length bytes.old }
    ensures { bytes.new ≡ records_bytes words records.now ++ drop (length records.now * (8 * words)) bytes.old }
{
    for (i, record) in records.iter().enumerate() {
        write_record(
            record,
            words,
            &mut bytes[i * (8 * words)..(i + 1) * (8 * words)],
        );
    }
}
