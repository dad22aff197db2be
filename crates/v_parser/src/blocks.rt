//! Blocks whose tokens are passed over.

ghost use Rattle.std.specs.Prelude.{◌≡◌};
ghost use Rattle.v_parser.specs.Input as input;
ghost use Rattle.v_parser.specs.Input.{Reads};
ghost use Rattle.v_parser.specs.Blocks as spec;

use crate::cursor::Cursor;
use crate::fault::ParseFault;
use v_tree::SpecifyBlock;

/// Whether a block or the text ends here.
fn ends_block(cursor: &Cursor<'_>) -> bool
    ensures { result ≡ spec.ends_block (input.front cursor.now) }
{
    cursor.sees_word(b"endspecify") || cursor.sees_finish()
}

/// Passes over the tokens before the end of a block, and tells how many they are.
#[tactic(auto, unfolding(crate::specs::Blocks::block_length, crate::specs::Blocks::block_length_from))]
fn block_length(cursor: &mut Cursor<'_>) -> Result<u32, ParseFault>
    ensures { Reads (spec.block_length cursor.old) result cursor.new }
{
    let mut count: u32 = 0;
    for _ in 0..cursor.left() {
        if ends_block(cursor) {
            return Ok(count);
        }
        cursor.advance();
        count += 1;
    }
    Ok(count)
}

/// `specify { any token but endspecify and the end } endspecify`
#[tactic(auto, unfolding(crate::specs::Blocks::specify_block))]
pub fn specify_block(cursor: &mut Cursor<'_>) -> Result<SpecifyBlock, ParseFault>
    ensures { Reads (spec.specify_block cursor.old) result cursor.new }
{
    let location = cursor.word(b"specify")?;
    let token_count = block_length(cursor)?;
    cursor.skip_word(b"endspecify")?;
    Ok(SpecifyBlock {
        location,
        token_count,
    })
}
