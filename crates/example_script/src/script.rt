//! The script of a size.
ghost use Rattle.std.specs.Prelude.{◌≡◌, ◌++◌, ◌∷◌, [], ◌≤◌, map, OnOk, IfOk};
ghost use Rattle.std.specs.List.{flat_map};
ghost use Rattle.example_script.specs.Lines.{numbered, behind_blanks};
ghost use Rattle.example_script.specs.Script.{one_to, variables_line, bit_lines, back_line, script_of};

use crate::lines::{Name, put_line, put_name};
use std::alloc::{AllocError, Global};

/// The script of that size, 1 to 16: it compares two words of so many bits, once from the first bit on and once from
/// the last, and asks whether both ways gave the same diagram. Both have `3 * 2^size - 3` nodes. Refuses for want of
/// memory alone, and leaves nothing then.
#[tactic(auto, unfolding(crate::specs::Script::script_of))]
pub fn gen_script(alloc: Global, size: u32) -> Result<Vec<u8>, AllocError>
    requires { (1 ≤ size) × (size ≤ 16) }
    ensures { IfOk result (λ script. script.items ≡ script_of size) }
{
    let mut script = Vec::new(alloc);
    put_variables(size, &mut script)?;
    script.extend_from_slice(b"const p0 1\n")?;
    put_bits(size, &mut script)?;
    script.extend_from_slice(b"const r0 1\n")?;
    put_back(size, &mut script)?;
    put_line(
        "same",
        &[Name::of(b'p', size), Name::of(b'r', size)],
        &mut script,
    )?;
    put_line("size", &[Name::of(b'p', size)], &mut script)?;
    Ok(script)
}

/// Puts the line of the variables.
fn put_variables(size: u32, script: &mut Vec<u8>) -> Result<(), AllocError>
    requires { size ≤ 16 }
    ensures { OnOk result (script.new.items ≡ script.old.items ++ variables_line size) }
{
    script.extend_from_slice(b"vars")?;
    put_names(b'x', size, script)?;
    put_names(b'y', size, script)?;
    script.push(b'\n')?;
    Ok(())
}

/// Puts the names of a letter with the numbers from 1 to `size`, each behind a blank.
fn put_names(letter: u8, size: u32, script: &mut Vec<u8>) -> Result<(), AllocError>
    requires { size ≤ 16 }
    ensures { OnOk result (script.new.items
        ≡ script.old.items ++ behind_blanks (map (numbered (letter ∷ [])) (one_to size))) }
{
    for i in 1..size + 1 {
        put_name(Name::of(letter, i), script)?;
    }
    Ok(())
}

/// Puts the lines of the bits, in order.
fn put_bits(size: u32, script: &mut Vec<u8>) -> Result<(), AllocError>
    requires { size ≤ 16 }
    ensures { OnOk result (script.new.items ≡ script.old.items ++ flat_map bit_lines (one_to size)) }
{
    for i in 1..size + 1 {
        put_bit(i, script)?;
    }
    Ok(())
}

/// Puts the lines of one bit.
fn put_bit(i: u32, script: &mut Vec<u8>) -> Result<(), AllocError>
    requires { 1 ≤ i }
    ensures { OnOk result (script.new.items ≡ script.old.items ++ bit_lines i) }
{
    put_line("var", &[Name::of(b'a', i), Name::of(b'x', i)], script)?;
    put_line("var", &[Name::of(b'b', i), Name::of(b'y', i)], script)?;
    put_line(
        "xnor",
        &[Name::of(b'e', i), Name::of(b'a', i), Name::of(b'b', i)],
        script,
    )?;
    put_line(
        "and",
        &[Name::of(b'p', i), Name::of(b'p', i - 1), Name::of(b'e', i)],
        script,
    )
}

/// Puts the lines that go back from the last bit.
fn put_back(size: u32, script: &mut Vec<u8>) -> Result<(), AllocError>
    requires { size ≤ 16 }
    ensures { OnOk result (script.new.items ≡ script.old.items ++ flat_map (back_line size) (one_to size)) }
{
    for i in 1..size + 1 {
        put_line(
            "and",
            &[
                Name::of(b'r', i),
                Name::of(b'r', i - 1),
                Name::of(b'e', size + 1 - i),
            ],
            script,
        )?;
    }
    Ok(())
}
