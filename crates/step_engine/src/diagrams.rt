//! The node files of constants and of variables.
ghost use Rattle.std.specs.Prelude.{◌≡◌, ◌+◌, ◌<◌, ◌≤◌, IsTrue, OnOk, IfOk, IfErr, length};
ghost use Rattle.shelf_model.specs.File.{firm_file};
ghost use Rattle.shelf_model.specs.World.{now, file};
ghost use Rattle.shelf_model.specs.Calls.{Told};
ghost use Rattle.shelf_model.specs.Moments.{Ran};
ghost use Rattle.shelf_model.specs.Faults.{OnlyShelf};
ghost use Rattle.rec_words.specs.Words.{most_variables};
ghost use Rattle.canon_file.specs.Canon.{canon_bytes};
ghost use Rattle.canon_file.specs.Constants.{const_table};
ghost use Rattle.canon_file.specs.Variables.{var_table, var_node};
ghost use Rattle.step_engine.specs.OneFile.{OnlyFile};

use node_file::NodeWriter;
use rec_words::{Node, Ptr, Rec, Uid};
use shelf_model::{FileNo, Shelf, StreamFault};

/// Makes a file that of a constant of `n` variables, and answers how many nodes it has.
pub(crate) fn write_constant<S: Shelf>(
    f: FileNo,
    n: u32,
    value: bool,
    window: &mut [Rec],
    shelf: &mut S,
) -> Result<u64, StreamFault>
    requires enough { 8 ≤ length window.old }
    ensures count { IfOk result (λ count. count ≡ 0) }
    ensures made { OnOk result (IsTrue (S.tells shelf.new) →
        file (S.world shelf.new) f ≡ firm_file (canon_bytes n (const_table n value))) }
    ensures content { Told S.tells shelf.old shelf.new
        (Ran (OnlyFile f (now (S.world shelf.old))) (S.world shelf.old) (S.world shelf.new)) }
    ensures calls { IsTrue (S.tells shelf.new)
        → (S.world shelf.new).clock ≤ (S.world shelf.old).clock + 4 }
    ensures cause { IfErr result (λ e. e ≡ StreamFault.Shelf) }
    ensures faults { OnlyShelf (S.faults shelf.old) (S.faults shelf.new) result }
{
    let writer = NodeWriter::start(f, n, window, shelf)?;
    writer.finish(Ptr::terminal(value), shelf)
}

/// Makes a file that of a variable's diagram, and answers how many nodes it has.
pub(crate) fn write_variable<S: Shelf>(
    f: FileNo,
    n: u32,
    level: u16,
    window: &mut [Rec],
    shelf: &mut S,
) -> Result<u64, StreamFault>
    requires enough { 8 ≤ length window.old }
    requires few { n ≤ most_variables }
    requires below { level < n }
    ensures count { IfOk result (λ count. count ≡ 1) }
    ensures made { OnOk result (IsTrue (S.tells shelf.new) →
        file (S.world shelf.new) f ≡ firm_file (canon_bytes n (var_table n level))) }
    ensures content { Told S.tells shelf.old shelf.new
        (Ran (OnlyFile f (now (S.world shelf.old))) (S.world shelf.old) (S.world shelf.new)) }
    ensures calls { IsTrue (S.tells shelf.new)
        → (S.world shelf.new).clock ≤ (S.world shelf.old).clock + 5 }
    ensures cause { IfErr result (λ e. e ≡ StreamFault.Shelf) }
    ensures faults { OnlyShelf (S.faults shelf.old) (S.faults shelf.new) result }
{
    let mut writer = NodeWriter::start(f, n, window, shelf)?;
    writer.put(variable_node(level), shelf)?;
    writer.finish(Ptr::of_row(level, 0), shelf)
}

/// The one node of a variable: the first of its level.
fn variable_node(level: u16) -> Node
    requires level { level < most_variables }
    ensures { result ≡ var_node level }
{
    let Some(uid) = Uid::of(Ptr::of_row(level, 0)) else {
        unreachable!();
    };
    Node {
        uid,
        low: Ptr::terminal(false),
        high: Ptr::terminal(true),
    }
}
