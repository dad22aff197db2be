ghost use Rattle.std.specs.Prelude.{◌≤◌, IfErr, IfOk, length};
ghost use Rattle.v_lexer.specs.Reading.{AreTokensOf};
ghost use Rattle.v_tree.specs.declared.modules.File.{File};
ghost use Rattle.v_tree.specs.Fit.{AreFitLists};
ghost use Rattle.v_tree.specs.Tree.{IsTreeOf};
ghost use Rattle.v_parser.specs.Reading.{Gives, GivesLists, IsRefusalOf, IsUnlessMemory, descriptions_of};

use crate::cursor::Cursor;
use crate::descriptions::{Lists, descriptions};
use crate::fault::ParseFault;
use std::alloc::Global;
use v_lexer::{Token, TokenList};
use v_tree::File;

/// The modules, the primitives and the directives of the tokens of a text.
fn read_lists(alloc: Global, text: &[u8], tokens: &[Token]) -> Result<Lists, ParseFault>
    requires small { length text.now ≤ 67108864 }
    requires tokens { AreTokensOf text.now tokens.now }
    ensures exact { GivesLists (descriptions_of text.now tokens.now) result }
    ensures fit { IfOk result (λ lists. AreFitLists lists.0 lists.1 lists.2) }
    ensures refused { IfErr result (λ fault. IsRefusalOf text.now tokens.now fault) }
{
    let mut cursor = Cursor::new(alloc, text, tokens);
    descriptions(&mut cursor)
}

/// The tree of the tokens of a text of at most 64 MiB.
///
/// The error is that the tokens are those of no tree; its number is that of a token at which reading
/// stops, counted from 0. `Memory` says nothing of the tokens.
pub fn parse(alloc: Global, text: &[u8], tokens: &TokenList) -> Result<File, ParseFault>
    requires small { length text.now ≤ 67108864 }
    requires tokens { AreTokensOf text.now tokens.now }
    // The tree or the fault that reading gives.
    ensures exact { Gives (descriptions_of text.now tokens.now) result }
    // The tokens are those with which the tree is written.
    ensures found { IfOk result (λ file. IsTreeOf text.now tokens.now file) }
    // Where a tree is written with them it is the one that is answered: so there is no other, and a
    // list that is refused is that of none.
    ensures only { (file : File) → IsTreeOf text.now tokens.now file → IsUnlessMemory file result }
    // The refused token is one of the list, as unsupported exactly where the grammar leaves such a
    // token out.
    ensures refused { IfErr result (λ fault. IsRefusalOf text.now tokens.now fault) }
{
    match read_lists(alloc, text, tokens.as_slice()) {
        Ok(lists) => {
            let (modules, udps, directives) = lists;
            Ok(File {
                modules,
                udps,
                directives,
            })
        }
        Err(fault) => Err(fault),
    }
}
