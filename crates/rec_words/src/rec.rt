ghost use Rattle.std.specs.Prelude.{◌≡◌, refl};
ghost use Rattle.std.proofs.Common.{lit≤};
ghost use Rattle.rec_words.specs.Records.{IsRec};
ghost use Rattle.rec_words.specs.RecordLaws.{same_rec, no_ninth};

use crate::Spill;

/// A record of eight words, which are 64 bytes. Records are ordered by their words in turn.
#[derive(Clone, Copy, Debug, PartialEq, Eq, PartialOrd, Ord)]
pub struct Rec {
    pub w: [u64; 8],
}

impl Spill for Rec {
    const WORDS: usize = 8;

    ghost WORDS = { 8 };

    ghost words = { λ r. r.w };

    ghost is_value = { IsRec };

    fn to_rec(&self) -> Rec {
        copy_of(self)
    }

    fn from_rec(source: &Rec) -> Option<Rec> {
        Some(copy_of(source))
    }

    ghost few = { (lit≤ tt, lit≤ tt) };

    ghost eight = { λ r value. value.eight };

    ghost fits = { λ r value. value.fits };

    ghost unused = { λ r value. no_ninth r value.eight };

    ghost differ = { λ r s _ _ same. same_rec r s same };

    ghost ordered = { λ _ _ _ _. refl };
}

/// The same record. Its words are read one by one, so that their range is known.
fn copy_of(source: &Rec) -> Rec
    ensures same { result ≡ source.now }
    ensures value { IsRec result }
{
    let [a, b, c, d, e, f, g, h] = source.w;
    Rec {
        w: [a, b, c, d, e, f, g, h],
    }
}
