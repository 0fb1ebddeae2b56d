//! An index from words to numbers. The words are kept in order, since a hash leaves a reader to whoever picks
//! the words.

ghost use Rattle.std.specs.Prelude.{◌≡◌, ℕ, ◌<◌, ◌^◌, [], List, None, map, length, is_some, not, option_map, find as prelude_find, IfOk, OnOk};
ghost use Rattle.blif_reader.specs.Index.{found_in, place_of, Puts};
ghost use Rattle.blif_reader.specs.Parts.{first_again, is_one};
ghost use Rattle.blif_reader.specs.Views.{names_in};
ghost use Rattle.blif_reader.specs.Words.{uses_left};

use crate::names::Names;
use crate::parts::Uses;
use std::alloc::{AllocError, Global};
use std::collections::BTreeMap;

pub(crate) type Index = BTreeMap<Vec<u8>, u32>;

/// An index without words.
#[tactic(auto, unfolding(crate::specs::Index::found_in))]
pub(crate) fn no_words(alloc: Global) -> Index
    ensures { (q : List ℕ) → found_in result q ≡ None }
{
    BTreeMap::new(alloc)
}

/// The number of a word.
#[tactic(auto, unfolding(crate::specs::Index::found_in))]
pub(crate) fn find(index: &Index, word: &[u8]) -> Option<u32>
    ensures { result ≡ found_in index.now word.now }
{
    index.get(word).copied()
}

/// Gives a word a number. The answer is the one that it had.
fn put(
    alloc: Global,
    index: &mut Index,
    word: &[u8],
    number: u32,
) -> Result<Option<u32>, AllocError>
    ensures old { IfOk result (λ old. old ≡ found_in index.old word.now) }
    ensures puts { OnOk result (Puts index.old index.new word.now number) }
{
    let key = Vec::from_slice(alloc, word)?;
    Ok(index.insert(key, number)?)
}

/// The line of the first use whose word was used before, where there is one. Otherwise the index then has these words.
pub(crate) fn line_again(
    alloc: Global,
    uses: Uses<'_>,
    index: &mut Index,
) -> Result<Option<u32>, AllocError>
    requires { (q : List ℕ) → found_in index.old q ≡ None }
    ensures line { IfOk result (λ line. line ≡ first_again [] (uses_left uses.entry)) }
    ensures words { IfOk result (λ line. line ≡ None → (q : List ℕ)
        → is_some (found_in index.new q) ≡ is_one (map (λ u. u.word) (uses_left uses.entry)) q) }
{
    for one in uses {
        let before = put(alloc, index, one.word, one.line)?;
        if before.is_some() {
            return Ok(Some(one.line));
        }
    }
    Ok(None)
}

/// The line of the first use whose word isn't in the index.
pub(crate) fn line_missing(uses: Uses<'_>, index: &Index) -> Option<u32>
    ensures { result ≡ option_map (λ u. u.line)
        (prelude_find (λ u. not (is_some (found_in index.now u.word))) (uses_left uses.entry)) }
{
    for one in uses {
        if find(index, one.word).is_none() {
            return Some(one.line);
        }
    }
    None
}

/// The places of names. The last is put first, so that the first of equal ones stays.
pub(crate) fn index_of(alloc: Global, names: &Names) -> Result<Index, AllocError>
    requires { length (names_in names.now) < 2 ^ 32 }
    ensures { IfOk result (λ index. (q : List ℕ) → found_in index q ≡ place_of (names_in names.now) q) }
{
    let mut index = no_words(alloc);
    let mut place = names.len();
    'names: while place > 0 {
        place -= 1;
        put(alloc, &mut index, names.at(place), place as u32)?;
    }
    Ok(index)
}
