//! What a checkpoint keeps of a copy.
ghost use Rattle.std.specs.Prelude.{◌↔◌, IsTrue};

use crate::CopyTask;
use saved_words::{Carried, Words};
use shelf_model::FileNo;

// The task, how many of its pieces stand, and how many bytes they are.
#[derive(Clone, Copy, Debug, PartialEq, Eq)]
pub(crate) struct Saved {
    pub(crate) task: CopyTask,
    pub(crate) turns: u64,
    pub(crate) kept: u64,
}

// The words of its two files, and then those of its three numbers.
type Parts = ((FileNo, FileNo), (u64, (u64, u64)));

impl Saved {
    ghost use Rattle.std.specs.Prelude.{◌≡◌};
    ghost use Rattle.copy_sweep.specs.Saved.{parts_of};

    fn parts(&self) -> Parts
        ensures { result ≡ parts_of self.now }
    {
        let files = (self.task.from, self.task.to);
        (files, (self.task.pieces, (self.turns, self.kept)))
    }
}

impl Carried for Saved {
    ghost use Rattle.copy_sweep.specs.Saved.{words_count, saved_words, IsSaved, saved_long, saved_fits, saved_differs};

    ghost count = { words_count };

    ghost words = { saved_words };

    ghost is_value = { IsSaved };

    fn put(&self, into: &mut Words) {
        self.parts().put(into);
    }

    fn put_none(into: &mut Words) {
        Parts::put_none(into);
    }

    fn get(from: &mut Words) -> Option<Saved> {
        let ((from, to), (pieces, (turns, kept))) = Parts::get(from)?;
        let task = CopyTask { from, to, pieces };
        Some(Saved { task, turns, kept })
    }

    fn get_none(from: &mut Words) -> bool {
        Parts::get_none(from)
    }

    ghost long = { saved_long };

    ghost fits = { saved_fits };

    ghost differ = { saved_differs };
}
