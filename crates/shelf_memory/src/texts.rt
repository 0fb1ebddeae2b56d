// The texts in memory, by their paths, each with its count of faults.
ghost use Rattle.std.specs.Prelude.{◌≡◌, ◌≢◌, ℕ, List, ◌≤◌, IsTrue, is_some, IfSome, OnOk, OnErr, IfNone, Some, None, true, String};
ghost use Rattle.shelf_memory.specs.Texts.{text_at, count_at, raised};

use std::alloc::{AllocError, Global};
use std::collections::BTreeMap;

/// A text, and how often fetching it failed.
#[derive(Drop)]
pub struct Text {
    pub bytes: Vec<u8>,
    pub faults: u64,
}

/// One more, where it is to rise, up to the last value.
pub fn raise(rises: bool, count: u64) -> u64
    ensures value { result ≡ raised rises count }
    ensures later { count ≤ result }
{
    if rises {
        count.saturating_add(1)
    } else {
        count
    }
}

/// The text at a path.
pub fn find_text<'a>(texts: &'a BTreeMap<String, Text>, path: &str) -> Option<&'a [u8]>
    ensures found { IfSome result (λ bytes. text_at texts.now path.now ≡ Some bytes.now) }
    ensures none { IfNone result (text_at texts.now path.now ≡ None) }
{
    match texts.get(path) {
        Some(text) => Some(&text.bytes),
        None => None,
    }
}

/// Puts a text at a path, with the count of faults that the path has.
pub fn put_text(
    alloc: Global,
    texts: &mut BTreeMap<String, Text>,
    others: u64,
    path: &str,
    bytes: &[u8],
) -> Result<(), AllocError>
    ensures ok { OnOk result (text_at texts.new path.now ≡ Some bytes.now) }
    ensures err { OnErr result ((q : List ℕ) → text_at texts.new q ≡ text_at texts.old q) }
    ensures apart { (q : List ℕ) → q ≢ path.now → text_at texts.new q ≡ text_at texts.old q }
    ensures counts { (q : List ℕ) → count_at others texts.new q ≡ count_at others texts.old q }
{
    let copy = Vec::from_slice(alloc, bytes)?;
    if let Some(text) = texts.get_mut(path) {
        text.bytes = copy;
        return Ok(());
    }
    let name = String::from_str(alloc, path)?;
    texts.insert(
        name,
        Text {
            bytes: copy,
            faults: others,
        },
    )?;
    Ok(())
}

/// Counts a fault at a path: paths without a text share one count.
pub fn count_fault(texts: &mut BTreeMap<String, Text>, others: &mut u64, path: &str)
    ensures texts { (q : List ℕ) → text_at texts.new q ≡ text_at texts.old q }
    ensures here { count_at others.new texts.new path.now ≡ raised true (count_at others.old texts.old path.now) }
    ensures later { (q : List ℕ) → count_at others.old texts.old q ≤ count_at others.new texts.new q }
    ensures apart { (q : List ℕ) → q ≢ path.now → IsTrue (is_some (text_at texts.old q)) →
        count_at others.new texts.new q ≡ count_at others.old texts.old q }
{
    match texts.get_mut(path) {
        Some(text) => text.faults = raise(true, text.faults),
        None => *others = raise(true, *others),
    }
}
