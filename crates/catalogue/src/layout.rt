//! Entries, and their bytes.
//!
//! An entry has 128 bytes, numbers with the highest byte first: the step number at 0 (4 bytes), the
//! kind at 4, the answer at 5, the length of the name at 6, a 0 at 7, the count at 8 (8 bytes), the
//! turns at 16 (8), the next part number at 24 (8), the name at 32 with bytes 0 behind it (63), and
//! 33 bytes 0.
use byteorder::{BigEndian, ByteOrder};

/// The bytes of an entry.
pub const ENTRY_SIZE: usize = 128;

/// What a committed step left.
#[derive(Clone, Copy, Debug, PartialEq, Eq)]
pub struct Entry {
    /// The number of the step.
    pub number: u32,
    /// 1 for a diagram, 2 for a drop, 3 for an answer.
    pub kind: u8,
    /// 1 where the step answered yes, or with the value 1.
    pub answer: u8,
    /// The nodes of a diagram or of a size, or the step that a drop gave up.
    pub count: u64,
    /// The turns that the step took.
    pub turns: u64,
    /// The step's next part number.
    pub parts: u64,
    /// The length of the name in bytes.
    pub name_len: u8,
    /// The name of a diagram that a line names, and bytes 0 behind it.
    pub name: [u8; 63],
}

impl Entry {
    ghost use Rattle.std.specs.Prelude.{◌≡◌, ◌↔◌, ◌≤◌, IsTrue, Some, IfSome, All, drop, length};
    ghost use Rattle.catalogue.specs.Files.{entry_size};
    ghost use Rattle.catalogue.specs.Entries.{entry_bytes, IsEntry, KeepsLayout, Fits};

    /// The bytes of the entry.
    #[tactic(auto, unfolding(crate::specs::Entries::entry_bytes))]
    pub(crate) fn to_bytes(&self) -> [u8; ENTRY_SIZE]
        ensures bytes { result ≡ entry_bytes self.now }
        ensures len { length result ≡ entry_size }
    {
        let mut bytes = [0u8; ENTRY_SIZE];
        BigEndian::write_u32(&mut bytes[0..4], self.number);
        bytes[4] = self.kind;
        bytes[5] = self.answer;
        bytes[6] = self.name_len;
        BigEndian::write_u64(&mut bytes[8..16], self.count);
        BigEndian::write_u64(&mut bytes[16..24], self.turns);
        BigEndian::write_u64(&mut bytes[24..32], self.parts);
        bytes[32..95].copy_from_slice(&self.name);
        bytes
    }

    /// The entry that the bytes are, where they are one.
    pub(crate) fn from_bytes(bytes: &[u8; ENTRY_SIZE]) -> Option<Entry>
        ensures found { IfSome result (λ e. IsEntry e × (entry_bytes e ≡ bytes.now)) }
        ensures only { (e : Entry) → IsEntry e → entry_bytes e ≡ bytes.now → result ≡ Some e }
    {
        let entry = Entry::fields_of(bytes);
        if entry.keeps_layout() && entry.to_bytes() == *bytes {
            Some(entry)
        } else {
            None
        }
    }

    // The fields at their places, whatever stands there.
    fn fields_of(bytes: &[u8; ENTRY_SIZE]) -> Entry
        ensures fits { Fits result }
        ensures read { (e : Entry) → Fits e → entry_bytes e ≡ bytes.now → e ≡ result }
    {
        let mut name = [0u8; 63];
        name.copy_from_slice(&bytes[32..95]);
        Entry {
            number: BigEndian::read_u32(&bytes[0..4]),
            kind: bytes[4],
            answer: bytes[5],
            count: BigEndian::read_u64(&bytes[8..16]),
            turns: BigEndian::read_u64(&bytes[16..24]),
            parts: BigEndian::read_u64(&bytes[24..32]),
            name_len: bytes[6],
            name,
        }
    }

    // Whether the fields agree with each other.
    fn keeps_layout(&self) -> bool
        ensures { IsTrue result ↔ (KeepsLayout self.now) }
    {
        let kind = 1 <= self.kind && self.kind <= 3;
        let answer = self.answer == 0 || (self.answer == 1 && self.kind == 3 && self.count == 0);
        let named = self.name_len == 0 || (self.name_len <= 63 && self.kind == 1);
        kind && answer && named && 1 <= self.turns && self.is_padded()
    }

    // Whether bytes 0 alone stand behind the name.
    fn is_padded(&self) -> bool
        requires { self.now.name_len ≤ 63 }
        ensures { IsTrue result ↔ (All (λ b. b ≡ 0) (drop self.now.name_len self.now.name)) }
    {
        self.name[self.name_len as usize..].iter().all(|b| *b == 0)
    }
}
