//! Tables in which a few entries are written, and made blank again.

ghost use Rattle.std.specs.Prelude.{◌≡◌, ℕ, ◌<◌, List, length, slice_index, replicate};
ghost use Rattle.depth_first.specs.Tables.{IsBlankBut};

/// Makes a table blank again in which only the entries at some places may not be.
pub fn make_blank<T: Copy>(table: &mut [T], places: &[u32], blank: T)
    requires others { IsBlankBut places.now blank table.old }
    requires inside { (i : ℕ) → i < length places.now
        → slice_index places.now i < length table.old }
    ensures { table.new ≡ replicate (length table.old) blank }
{
    for place in places {
        table[*place as usize] = blank;
    }
}
