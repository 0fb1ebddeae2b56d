//! The line of a diagram.
ghost use Rattle.std.specs.Prelude.{◌≡◌, ◌<◌, ◌≤◌, length};
ghost use Rattle.diagram_list.specs.Listing.{diagram_line};

use arrayvec::ArrayVec;
use catalogue::Entry;
use itoa::Buffer;

/// A name of at most 63 bytes, a blank, a number of at most 20 digits, and a line feed.
pub(crate) type Line = ArrayVec<u8, 104>;

/// The line of a named diagram: its name and its number of nodes.
pub(crate) fn diagram_line(entry: &Entry) -> Line
    requires { entry.now.name_len ≤ 63 }
    ensures text { result.items ≡ diagram_line entry.now }
    ensures some { 0 < length result.items }
    ensures short { length result.items ≤ 2048 }
{
    let mut line = Line::new();
    let _name = line.try_extend_from_slice(&entry.name[..entry.name_len as usize]);
    line.push(b' ');
    let _count = line.try_extend_from_slice(Buffer::new().format(entry.count).as_bytes());
    line.push(b'\n');
    line
}
