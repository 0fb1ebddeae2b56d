// The words and the order of what a reduction sorts, worked by hand.
ghost use Rattle.std.specs.Prelude.{◌≡◌, Some};

use arc_diagrams::{FinalArc, Name, SourceRow};
use rec_words::{Ptr, Spill, Uid};
use std::test::Fail;

/// What is read of a value that was written.
fn read_back<T: Spill>(x: T) -> Option<T>
    ensures { result ≡ Some x }
{
    T::from_rec(&x.to_rec())
}

/// Whether an arc, a row and a name are written as these words, and read back.
fn are_read_back(deep: Uid, top: Uid) -> bool {
    let zero = Ptr::terminal(false);
    let one = Ptr::terminal(true);
    let arc = FinalArc {
        source: deep,
        high: true,
        target: one,
    };
    let row = SourceRow {
        low: zero,
        high: one,
        source: deep,
    };
    let name = Name {
        source: top,
        pointer: zero,
    };
    arc.to_rec().w == [0x7fff_7fff_ffff_fffa, 1, (1 << 63) + 1, 0, 0, 0, 0, 0]
        && row.to_rec().w == [1 << 63, (1 << 63) + 1, 0x0000_8000_0000_0005, 0, 0, 0, 0, 0]
        && name.to_rec().w == [0x7fff_ffff_ffff_ffff, 1 << 63, 0, 0, 0, 0, 0, 0]
        && read_back(arc) == Some(arc)
        && read_back(row) == Some(row)
        && read_back(name) == Some(name)
}

#[test]
fn writes_the_words_of_items(rt: HostRuntime) -> Result<(), Fail> {
    let deep = Uid::of(Ptr::node(1, 5)).ok_or("no identifier")?;
    let top = Uid::of(Ptr::node(0, 0)).ok_or("no identifier")?;
    assert!(rt; are_read_back(deep, top));
    Ok(())
}

/// Whether items of a deeper source come first, and of one source those of the low side.
fn are_in_order(deeper: Uid, shallower: Uid) -> bool {
    let zero = Ptr::terminal(false);
    let one = Ptr::terminal(true);
    let first = FinalArc {
        source: deeper,
        high: true,
        target: one,
    };
    let second = FinalArc {
        source: shallower,
        high: false,
        target: one,
    };
    let third = FinalArc {
        source: shallower,
        high: true,
        target: zero,
    };
    let deep_name = Name {
        source: deeper,
        pointer: one,
    };
    let shallow_name = Name {
        source: shallower,
        pointer: zero,
    };
    first < second && second < third && deep_name < shallow_name
}

#[test]
fn puts_greater_sources_first(rt: HostRuntime) -> Result<(), Fail> {
    let deeper = Uid::of(Ptr::node(2, 0)).ok_or("no identifier")?;
    let shallower = Uid::of(Ptr::node(1, 9)).ok_or("no identifier")?;
    assert!(rt; are_in_order(deeper, shallower));
    Ok(())
}
