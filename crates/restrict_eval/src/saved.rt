//! What a checkpoint keeps of a comparison.
use node_reading::Unread;
use saved_words::{Carried, Words};
use shelf_model::FileNo;

// The variables, both files, whether one more node was given of the first of them, and the answer once it is known.
#[derive(Clone, Copy, Debug, PartialEq, Eq)]
pub(crate) struct SavedSame {
    pub(crate) n: u32,
    pub(crate) left: Unread,
    pub(crate) right: Unread,
    pub(crate) ahead: bool,
    pub(crate) answer: Option<bool>,
}

// The words of the first file behind those of the variables, of the second one, and of what was found.
type Parts = ((u32, (FileNo, u64)), ((FileNo, u64), (bool, Option<bool>)));

impl SavedSame {
    ghost use Rattle.std.specs.Prelude.{◌≡◌};
    ghost use Rattle.restrict_eval.specs.SavedSame.{parts_of};

    fn parts(&self) -> Parts
        ensures { result ≡ parts_of self.now }
    {
        let first = (self.n, (self.left.file, self.left.place));
        let second = (self.right.file, self.right.place);
        (first, (second, (self.ahead, self.answer)))
    }
}

impl Carried for SavedSame {
    ghost use Rattle.restrict_eval.specs.SavedSame.{same_count, same_words, IsSaved, same_long, same_fits};
    ghost use Rattle.restrict_eval.specs.SavedSame.{same_differs};

    ghost count = { same_count };

    ghost words = { same_words };

    ghost is_value = { IsSaved };

    fn put(&self, into: &mut Words) {
        self.parts().put(into);
    }

    fn put_none(into: &mut Words) {
        Parts::put_none(into);
    }

    fn get(from: &mut Words) -> Option<SavedSame> {
        let ((n, left), (right, (ahead, answer))) = Parts::get(from)?;
        Some(SavedSame {
            n,
            left: Unread {
                file: left.0,
                place: left.1,
            },
            right: Unread {
                file: right.0,
                place: right.1,
            },
            ahead,
            answer,
        })
    }

    fn get_none(from: &mut Words) -> bool {
        Parts::get_none(from)
    }

    ghost long = { same_long };

    ghost fits = { same_fits };

    ghost differ = { same_differs };
}
