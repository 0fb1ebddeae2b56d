//! The places of names among others.

ghost use Rattle.std.specs.Prelude.{◌≡◌, ◌<◌, ◌^◌, ℕ, List, is_some, length, IfOk, IfSome};
ghost use Rattle.script_reader.specs.Names.{place_of, all_differ};
ghost use Rattle.script_reader.specs.Keywords.{texts_of};
ghost use Rattle.script_reader.specs.Views.{texts, words_of, found_in};

use std::alloc::{AllocError, Global};
use std::collections::BTreeMap;
use text_words::Word;

/// The bytes of words.
pub(crate) fn bytes_of<'a>(alloc: Global, words: &[Word<'a>]) -> Result<Vec<&'a [u8]>, AllocError>
    ensures { IfOk result (λ v. texts v.items ≡ texts_of (words_of words.now)) }
{
    let mut bytes = Vec::new(alloc);
    for word in words {
        bytes.push(word.bytes)?;
    }
    Ok(bytes)
}

/// The place of each name in the list, or None where one stands there twice.
pub(crate) fn places_of<'a>(
    alloc: Global,
    names: &[&'a [u8]],
) -> Result<Option<BTreeMap<&'a [u8], u32>>, AllocError>
    requires { length names.now < 2 ^ 32 }
    ensures places { IfOk result (λ found. IfSome found (λ places. (name : List ℕ)
        → found_in places name ≡ place_of (texts names.now) name)) }
    ensures differ { IfOk result (λ found. is_some found ≡ all_differ (texts names.now)) }
{
    let mut places = BTreeMap::new(alloc);
    for (place, name) in names.iter().enumerate() {
        if places.insert(*name, place as u32)?.is_some() {
            return Ok(None);
        }
    }
    Ok(Some(places))
}
