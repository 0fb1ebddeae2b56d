//! What the room keeps of a level.
ghost use Rattle.std.specs.Prelude.{◌≡◌};
ghost use Rattle.room_products.specs.Level.{level_in, level_record};

use rec_words::Rec;

/// What the room keeps of a level, in the level's record: where its sources begin, the places behind those of its first
/// and of its last waiting slot, or 0 where none waits, how many of its identifiers are used, and where the nodes of
/// each operand begin.
#[derive(Clone, Copy)]
pub(crate) struct Level {
    pub(crate) begin: u64,
    pub(crate) first_slot: u64,
    pub(crate) last_slot: u64,
    pub(crate) used: u64,
    pub(crate) left_nodes: u64,
    pub(crate) right_nodes: u64,
}

/// How many identifiers of a level are used, as its record says.
pub(crate) fn used_of(record: &Rec) -> u64
    ensures { result ≡ (level_in record.now).used }
{
    record.w[3]
}

impl Level {
    /// What a record says of its level.
    pub(crate) fn of(record: &Rec) -> Level
        ensures { result ≡ level_in record.now }
    {
        Level {
            begin: record.w[0],
            first_slot: record.w[1],
            last_slot: record.w[2],
            used: record.w[3],
            left_nodes: record.w[4],
            right_nodes: record.w[5],
        }
    }

    /// The record that says this.
    pub(crate) fn to_rec(self) -> Rec
        ensures { result ≡ level_record self }
    {
        Rec {
            w: [
                self.begin,
                self.first_slot,
                self.last_slot,
                self.used,
                self.left_nodes,
                self.right_nodes,
                0,
                0,
            ],
        }
    }
}
