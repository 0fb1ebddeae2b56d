//! Acts: what is done with a station, and what has to come of it.
use crate::bench_run::gives;
use crate::files::{has_words, is_untouched, same_files};
use shelf_memory::{Bench, Choice};
use shelf_model::{FileNo, LONGEST};
use std::alloc::{AllocError, Global};

/// What is done with a station, or what has to be so there.
#[derive(Clone, Copy)]
pub enum Act {
    /// There is a text at the path.
    Put(&'static str, &'static [u8]),
    /// There is a text of so many crosses at the path.
    PutCrosses(&'static str, usize),
    /// There is a script at the path that names so many variables, of at most 100,000, and has no step.
    PutVariables(&'static str, u32),
    /// The bytes of the file from the first place to the second, which it has, are replaced by these.
    Replace(FileNo, usize, usize, &'static [u8]),
    /// The call of that number fails.
    FailAt(u64),
    /// Each call fails from that number on.
    FailFrom(u64),
    /// Each call fails behind the moment at which the file has so many bytes.
    FailWhen(FileNo, u64),
    /// A run with these words answers the status, and the station was told this text in all.
    Run(&'static [&'static str], u8, &'static [u8]),
    /// A stop leaves what the choice takes.
    Stop(Choice),
    /// The file has these bytes and no others.
    Bytes(FileNo, &'static [u8]),
    /// The file has these bytes from that place on.
    Part(FileNo, usize, &'static [u8]),
    /// The file has zeros from the first place to the second.
    Zeros(FileNo, usize, usize),
    /// The file has these words and no other bytes.
    Words(FileNo, &'static [u64]),
    /// The file has so many bytes.
    Length(FileNo, usize),
    /// So many calls were made.
    Calls(u64),
    /// At most so many calls were made.
    FewCalls(u64),
    /// The folder holds no job, no entry, no committed step, and nothing of a first step.
    Untouched,
}

/// Puts a text of so many crosses at a path, and answers whether there was memory for it.
fn puts_crosses(alloc: Global, bench: &mut Bench, path: &str, count: usize) -> bool {
    match vec![in alloc; b'#'; count] {
        Ok(text) => bench.put_text(path, &text).is_ok(),
        Err(_) => false,
    }
}

/// The line that names so many variables: their names are their numbers, in five digits.
fn variables_line(alloc: Global, count: u32) -> Result<Vec<u8>, AllocError> {
    let mut line = Vec::from_slice(alloc, b"vars")?;
    for number in 0..count {
        line.push(b' ')?;
        for digits in [
            number / 10_000,
            number / 1_000,
            number / 100,
            number / 10,
            number,
        ] {
            line.push(b'0' + (digits % 10) as u8)?;
        }
    }
    line.push(b'\n')?;
    Ok(line)
}

/// Puts that line at a path, and answers whether there was memory for it.
fn puts_variables(alloc: Global, bench: &mut Bench, path: &str, count: u32) -> bool {
    match variables_line(alloc, count) {
        Ok(line) => bench.put_text(path, &line).is_ok(),
        Err(_) => false,
    }
}

/// What stands of a file's bytes in front of the first place and from the second on, and these bytes in between: none
/// where that isn't there, or is more than 1,024 bytes.
fn replaced(
    alloc: Global,
    bytes: &[u8],
    first: usize,
    end: usize,
    new: &[u8],
) -> Result<Option<Vec<u8>>, AllocError> {
    let (Some(front), Some(rest)) = (bytes.get(..first), bytes.get(end..)) else {
        return Ok(None);
    };
    let mut all = Vec::from_slice(alloc, front)?;
    all.extend_from_slice(new)?;
    all.extend_from_slice(rest)?;
    Ok(if all.len() <= 1_024 { Some(all) } else { None })
}

/// Replaces bytes of a file, and answers whether it has that many and there was memory.
fn replaces(
    alloc: Global,
    bench: &mut Bench,
    f: FileNo,
    places: (usize, usize),
    new: &[u8],
) -> bool {
    match replaced(alloc, bench.file(f), places.0, places.1, new) {
        Ok(Some(all)) => all.len() as u64 <= LONGEST && bench.put_file(f, &all).is_ok(),
        _ => false,
    }
}

/// Whether bytes are 0 from the first place to the second.
fn has_zeros(bytes: &[u8], first: usize, end: usize) -> bool {
    let Some(part) = bytes.get(first..end) else {
        return false;
    };
    for byte in part {
        if *byte != 0 {
            return false;
        }
    }
    true
}

/// Whether what an act asks for is so, where it does nothing.
fn is_so(bench: &Bench, act: Act) -> bool {
    match act {
        Act::Bytes(f, bytes) => bench.file(f) == bytes,
        Act::Part(f, place, bytes) => {
            bench.file(f).get(place..place.saturating_add(bytes.len())) == Some(bytes)
        }
        Act::Zeros(f, first, end) => has_zeros(bench.file(f), first, end),
        Act::Words(f, words) => has_words(bench, f, words),
        Act::Length(f, length) => bench.file(f).len() == length,
        Act::Calls(count) => bench.clock() == count,
        Act::FewCalls(most) => bench.clock() <= most,
        Act::Untouched => is_untouched(bench),
        _ => false,
    }
}

/// Does what an act says, and answers whether it is so.
fn does(alloc: Global, bench: &mut Bench, act: Act) -> bool {
    match act {
        Act::Put(path, text) => bench.put_text(path, text).is_ok(),
        Act::PutCrosses(path, count) => puts_crosses(alloc, bench, path, count),
        Act::PutVariables(path, count) => puts_variables(alloc, bench, path, count),
        Act::Replace(f, first, end, new) => replaces(alloc, bench, f, (first, end), new),
        Act::FailAt(call) => bench.fail_at(call).is_ok(),
        Act::FailFrom(call) => {
            bench.fail_from(call);
            true
        }
        Act::FailWhen(f, size) => {
            bench.fail_when(f, size);
            true
        }
        Act::Run(words, status, said) => gives(alloc, words, bench, status, said),
        _ => is_so(bench, act),
    }
}

/// The station behind these acts, which is empty at first, or the place of the first that goes otherwise.
fn behind(alloc: Global, before: &[Act], acts: &[Act]) -> Result<Bench, usize> {
    let mut bench = Bench::empty(alloc);
    for (place, act) in before.iter().chain(acts).enumerate() {
        if let Act::Stop(choice) = *act {
            match bench.stop(choice) {
                Ok(next) => bench = next,
                Err(_) => return Err(place),
            }
        } else if !does(alloc, &mut bench, *act) {
            return Err(place);
        }
    }
    Ok(bench)
}

/// The place of the first of these acts that goes otherwise, or their number where the files aren't those of another
/// station behind its acts, if there is one. An act for which no memory is found goes otherwise.
pub fn first_fault(
    alloc: Global,
    before: &[Act],
    acts: &[Act],
    like: Option<&[Act]>,
) -> Option<usize> {
    let bench = match behind(alloc, before, acts) {
        Ok(bench) => bench,
        Err(place) => return Some(place),
    };
    let same = match like {
        Some(like) => match behind(alloc, like, &[]) {
            Ok(other) => same_files(&bench, &other),
            Err(_) => false,
        },
        None => true,
    };
    if same {
        None
    } else {
        Some(before.len().saturating_add(acts.len()))
    }
}
