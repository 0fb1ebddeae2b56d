// The words of pointers and nodes, worked by hand.
ghost use Rattle.std.specs.Prelude.{◌≡◌, Some};

use rec_words::{Node, Ptr, Spill, Uid};
use std::test::Fail;

const TOP: u64 = (1 << 47) - 1;

/// What is read of a value that was written.
fn read_back<T: Spill>(x: T) -> Option<T>
    ensures { result ≡ Some x }
{
    T::from_rec(&x.to_rec())
}

#[test]
fn writes_the_words_of_nodes(rt: HostRuntime) {
    let cases: [(u16, u64, u64); 4] = [
        (0, TOP, 0x0000_7fff_ffff_ffff),
        (1, TOP, 0x0000_ffff_ffff_ffff),
        (1, TOP - 1, 0x0000_ffff_ffff_fffe),
        (2, TOP, 0x0001_7fff_ffff_ffff),
    ];
    for (level, number, word) in cases {
        let written = Ptr::node(level, number).word() == word;
        let read = Ptr::from_word(word).and_then(Ptr::level) == Some(level);
        assert!(rt; written && read, "{word:016x}");
    }
}

#[test]
fn accepts_the_words_of_pointers_alone(rt: HostRuntime) {
    let cases: [(u64, bool); 7] = [
        (0, true),
        (0x7fff_7fff_ffff_ffff, true),
        (0x7fff_8000_0000_0000, false),
        (0x8000_0000_0000_0000, true),
        (0x8000_0000_0000_0001, true),
        (0x8000_0000_0000_0002, false),
        (0xffff_ffff_ffff_ffff, false),
    ];
    for (word, is_pointer) in cases {
        assert!(rt; Ptr::from_word(word).is_some() == is_pointer, "{word:016x}");
    }
}

/// Whether a node is written as its three words and read back, and its record with a further word is none.
fn is_read_back(node: Node) -> bool {
    let record = node.to_rec();
    let mut longer = node.to_rec();
    longer.w[3] = 1;
    read_back(node) == Some(node)
        && read_back(record) == Some(record)
        && record.w == [0x0000_ffff_ffff_ffff, 1 << 63, (1 << 63) + 1, 0, 0, 0, 0, 0]
        && Node::from_rec(&longer).is_none()
}

#[test]
fn reads_records_back(rt: HostRuntime) -> Result<(), Fail> {
    let one = Ptr::terminal(true);
    let uid = Uid::of(Ptr::node(1, TOP)).ok_or("no identifier")?;
    let node = Node {
        uid,
        low: Ptr::terminal(false),
        high: one,
    };
    let values = one.value() == Some(true) && uid.ptr().value().is_none();
    assert!(rt; values && is_read_back(node));
    Ok(())
}
