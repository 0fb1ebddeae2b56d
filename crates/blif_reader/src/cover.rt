//! The covers of blocks.

ghost use Rattle.std.specs.Prelude.{◌≡◌, ◌*◌, length};

/// Rows of one width. Their characters stand end to end.
#[derive(Drop)]
pub(crate) struct Rows {
    pub count: usize,
    pub width: usize,
    pub cells: Vec<u8>,
    ghost fits: { length cells.items ≡ count * width },
}

/// The cover of a block: its line, the output of its rows, and their characters.
#[derive(Drop)]
pub(crate) struct Cover {
    pub line: u32,
    pub value: bool,
    pub rows: Rows,
}

impl Rows {
    ghost use Rattle.std.specs.Prelude.{◌<◌, [], take, drop};
    ghost use Rattle.std.specs.List.{slice_index_or};
    ghost use Rattle.blif_reader.specs.Views.{rows_of};

    /// The characters of a row.
    pub(crate) fn row(&self, row: usize) -> &[u8]
        requires { row < self.now.count }
        ensures { result.now ≡ slice_index_or (rows_of self.now) row [] }
    {
        let from = row * self.width;
        &self.cells[from..from + self.width]
    }
}
