ghost use Rattle.std.specs.Prelude.{◌≡◌, ◌++◌, OnOk};
ghost use Rattle.std.specs.Fmt.{decimal};
ghost use Rattle.flat_names.specs.Spelling.{Written, Unnamed, own_spelling, part_spelling, bit_spelling};

use itoa::Buffer;
use std::alloc::AllocError;
use v_lexer::ReservedWords;

/// Appends a name that is written in a module: as it is where it can be written without a `\`, else
/// between a `\` and a space (IEEE 1364-2005, 3.7.1). The text of an escaped name is without its `\`.
pub fn push_name(text: &mut Vec<u8>, words: &ReservedWords, name: &[u8]) -> Result<(), AllocError>
    ensures { OnOk result (text.new.items ≡ text.old.items ++ own_spelling (Written name.now)) }
{
    if words.is_plain(name) {
        text.extend_from_slice(name)?;
        return Ok(());
    }
    text.push(b'\\')?;
    text.extend_from_slice(name)?;
    text.push(b' ')?;
    Ok(())
}

/// Appends the name of an instance of a path, and the `.` behind it.
pub fn push_instance(
    text: &mut Vec<u8>,
    words: &ReservedWords,
    name: &[u8],
) -> Result<(), AllocError>
    ensures { OnOk result (text.new.items ≡ text.old.items ++ part_spelling (Written name.now)) }
{
    push_name(text, words, name)?;
    text.push(b'.')?;
    Ok(())
}

/// Appends a number.
fn push_number(text: &mut Vec<u8>, number: u32) -> Result<(), AllocError>
    ensures { OnOk result (text.new.items ≡ text.old.items ++ decimal number) }
{
    let mut buffer = Buffer::new();
    text.extend_from_slice(buffer.format(number).as_bytes())?;
    Ok(())
}

/// Appends what stands for the name of a thing without one: `#` and its number, counted from 0 through
/// its module.
pub fn push_unnamed(text: &mut Vec<u8>, number: u32) -> Result<(), AllocError>
    ensures { OnOk result (text.new.items ≡ text.old.items ++ own_spelling (Unnamed number)) }
{
    text.push(b'#')?;
    push_number(text, number)
}

/// Appends the index of a bit of a vector, in brackets.
pub fn push_bit(text: &mut Vec<u8>, index: u32) -> Result<(), AllocError>
    ensures { OnOk result (text.new.items ≡ text.old.items ++ bit_spelling index) }
{
    text.push(b'[')?;
    push_number(text, index)?;
    text.push(b']')?;
    Ok(())
}
