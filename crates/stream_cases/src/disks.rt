// A folder in memory: calls with ample memory succeed, and a call that fails leaves the next ones as they were.
use shelf_memory::{Bench, Choice};
use shelf_model::{FileNo, Shelf, Station};
use std::alloc::Global;
use std::test::Fail;

const NODES: FileNo = FileNo { step: 2, part: 0 };

// A folder with a script, of which some calls failed: whether they changed nothing, and the others what they are to.
// The calls are numbered from 0.
fn written_between_failures(alloc: Global) -> Result<(Bench, bool), Fail> {
    let mut bench = Bench::empty(alloc);
    bench.put_text("script", b"vars a\n")?;
    bench.fail_at(2)?;
    bench.fail_at(4)?;
    bench.fail_at(7)?;
    bench.enter("FOLDER")?;
    bench.append(NODES, 0, b"one")?;
    let refused = bench.append(NODES, 3, b"two").is_err();
    if !refused {
        return Ok((bench, false));
    }
    bench.append(NODES, 3, b"three")?;
    let cut = bench.cut(NODES, 3).is_err();
    let kept = bench.file(NODES) == b"onethree".as_slice();
    bench.cut(NODES, 6)?;
    bench.sync(NODES)?;
    let say = bench.say(b"done\n").is_err();
    bench.say(b"start\n")?;
    Ok((bench, cut && kept && say))
}

// Whether what was written is read, and no text is at another path.
fn reads_what_is_left(bench: &mut Bench) -> Result<bool, Fail> {
    let mut piece = [0; 4];
    let mut script = [0; 4];
    let read = bench.read_at(NODES, 4, &mut piece)?;
    let fetched = bench.fetch("script", 5, &mut script)?;
    let other = bench.fetch("netlist", 0, &mut script).is_err();
    let len = bench.len(NODES)?;
    Ok(
        read == 2
            && piece == *b"hr\0\0"
            && fetched == 2
            && script == *b"a\n\0\0"
            && other
            && len == 6,
    )
}

// Whether each call fails from call 14 on, and leaves all as it was.
fn fails_from_then_on(bench: &mut Bench) -> Result<bool, Fail> {
    bench.fail_from(14);
    bench.sync(NODES)?;
    let len = bench.len(NODES).is_err();
    Ok(
        len && bench.file(NODES) == b"onethr".as_slice()
            && bench.said() == b"start\n".as_slice()
            && bench.clock() == 15
            && bench.starved() == 0,
    )
}

#[test]
fn goes_on_after_calls_that_fail(rt: HostRuntime) -> Result<(), Fail> {
    let (mut bench, written) = written_between_failures(rt.alloc())?;
    assert!(rt; written && reads_what_is_left(&mut bench)? && fails_from_then_on(&mut bench)?);
    Ok(())
}

// A file of the bytes `abcd` of which the first two are sure, and that may reach to six.
fn torn(alloc: Global, file: FileNo) -> Result<Bench, Fail> {
    let mut bench = Bench::empty(alloc);
    bench.put_text("script", b"vars a\n")?;
    bench.fail_at(3)?;
    bench.append(file, 0, b"ab")?;
    bench.sync(file)?;
    bench.append(file, 2, b"cd")?;
    let _ = bench.append(file, 4, b"ef");
    Ok(bench)
}

// Whether a stop leaves these bytes, which are sure then, and the texts, with no calls counted and nothing said.
fn leaves(alloc: Global, choice: Choice, left: &[u8]) -> Result<bool, Fail> {
    let file = FileNo { step: 1, part: 4 };
    let next = torn(alloc, file)?.stop(choice)?;
    let chosen = next.file(file) == left;
    let anew = next.clock() == 0 && next.said().is_empty();
    let mut last = next.stop(Choice::Firm)?;
    let sure = last.file(file) == left;
    let mut script = [0; 4];
    let fetched = last.fetch("script", 0, &mut script)?;
    Ok(chosen && anew && sure && fetched == 4 && script == *b"vars")
}

#[test]
fn a_stop_leaves_what_is_chosen(rt: HostRuntime) -> Result<(), Fail> {
    let cases: [(Choice, &[u8]); 7] = [
        (Choice::Firm, b"ab"),
        (Choice::Present, b"abcd"),
        (Choice::Fill(b'.'), b"ab...."),
        (Choice::Mixed(1), b"ab"),
        (Choice::Mixed(2), b"abcd"),
        (Choice::Mixed(3), b"ab\xff\xff\xff\xff"),
        (Choice::Mixed(u64::MAX), b"ab\xff\xff\xff\xff"),
    ];
    for (choice, left) in cases {
        assert!(rt; leaves(rt.alloc(), choice, left)?, "{choice:?}");
    }
    Ok(())
}

// Whether calls fail once the file was of four bytes, and of seven, though it is shorter again.
fn fails_after(bench: &mut Bench) -> Result<bool, Fail> {
    bench.put_file(NODES, b"abc")?;
    let put = bench.file(NODES) == b"abc".as_slice();
    bench.fail_when(NODES, 4);
    bench.append(NODES, 3, b"def")?;
    let cut = bench.cut(NODES, 1).is_err();
    let say = bench.say(b"a").is_err();
    bench.fail_when(NODES, 7);
    bench.cut(NODES, 1)?;
    bench.put_file(NODES, b"abcdefg")?;
    let long = bench.len(NODES).is_err();
    bench.put_file(NODES, b"")?;
    let short = bench.len(NODES).is_err();
    Ok(put && cut && say && long && short)
}

#[test]
fn fails_once_a_file_was_long_enough(rt: HostRuntime) -> Result<(), Fail> {
    let mut bench = Bench::empty(rt.alloc());
    assert!(rt; fails_after(&mut bench)?);
    Ok(())
}
