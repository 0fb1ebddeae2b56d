//! What a checkpoint keeps of an evaluation.
use crate::following::{Following, Next};
use node_reading::Unread;
use rec_words::Ptr;
use saved_words::{Carried, Words};
use shelf_model::FileNo;

// The variables, the place of the bits in the text, the file, and one of three: where the path leads, the place that it
// passed, or the answer.
#[derive(Clone, Copy, Debug, PartialEq, Eq)]
pub(crate) struct SavedEval {
    pub(crate) n: u32,
    pub(crate) at: u32,
    pub(crate) unread: Unread,
    pub(crate) pointer: Option<Ptr>,
    pub(crate) passed: Option<u64>,
    pub(crate) answer: Option<bool>,
}

// The words of the bits and of the file, and then of where the path is.
type Parts = (
    ((u32, u32), (FileNo, u64)),
    (Option<Ptr>, (Option<u64>, Option<bool>)),
);

impl SavedEval {
    ghost use Rattle.std.specs.Prelude.{◌≡◌};
    ghost use Rattle.restrict_eval.specs.SavedEval.{parts_of, following_of};

    fn parts(&self) -> Parts
        ensures { result ≡ parts_of self.now }
    {
        let bits = (self.n, self.at);
        let file = (self.unread.file, self.unread.place);
        ((bits, file), (self.pointer, (self.passed, self.answer)))
    }

    // How far the path was followed, if that is said.
    pub(crate) fn following(&self) -> Option<Following>
        ensures { result ≡ following_of self.now }
    {
        if let Some(answer) = self.answer {
            return Some(Following::Answered(answer));
        }
        if let Some(place) = self.passed {
            return Some(Following::Past(place));
        }
        match self.pointer {
            Some(pointer) => Some(Following::To(Next { pointer })),
            None => None,
        }
    }
}

impl Carried for SavedEval {
    ghost use Rattle.restrict_eval.specs.SavedEval.{eval_count, eval_words, IsSaved, eval_long, eval_fits};
    ghost use Rattle.restrict_eval.specs.SavedEval.{eval_differs};

    ghost count = { eval_count };

    ghost words = { eval_words };

    ghost is_value = { IsSaved };

    fn put(&self, into: &mut Words) {
        self.parts().put(into);
    }

    fn put_none(into: &mut Words) {
        Parts::put_none(into);
    }

    fn get(from: &mut Words) -> Option<SavedEval> {
        let ((bits, file), (pointer, (passed, answer))) = Parts::get(from)?;
        Some(SavedEval {
            n: bits.0,
            at: bits.1,
            unread: Unread {
                file: file.0,
                place: file.1,
            },
            pointer,
            passed,
            answer,
        })
    }

    fn get_none(from: &mut Words) -> bool {
        Parts::get_none(from)
    }

    ghost long = { eval_long };

    ghost fits = { eval_fits };

    ghost differ = { eval_differs };
}
