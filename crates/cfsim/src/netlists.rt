//! The netlist of a text.

ghost use Rattle.std.specs.Prelude.{◌≤◌, ◌≡◌, length, Ok, IfOk, IfErr, IsTrue};
ghost use Rattle.gate_net.specs.Sound.{IsSound};
ghost use Rattle.name_table.specs.Names.{is_distinct};
ghost use Rattle.v_lexer.specs.declared.token.Token.{Token};
ghost use Rattle.v_parser.specs.Reading.{IsRefusalOf};
ghost use Rattle.cfsim.specs.Answer.{netlist_limit};
ghost use Rattle.cfsim.specs.Netlists.{netlist_of_tree, netlist_of_text, refusal_of_lexer, refusal_of_parser, refusal_of_tree};
ghost use Rattle.cfsim.specs.Refusals.{Tells, IsOfText};

use crate::line_fault::LineFault;
use crate::refusal::Refusal;
use byte_lists::Bytes;
use first_netlist::netlist_of;
use gate_net::{BuildFault, Netlist};
use std::alloc::Global;
use v_lexer::{LexFault, Token, tokens};
use v_parser::{ParseFault, parse};
use v_tree::File;

/// The refusal of a text without tokens.
fn refusal_of_lexer(fault: LexFault) -> Refusal
    ensures { result ≡ refusal_of_lexer fault }
{
    match fault {
        LexFault::Faulty(kind, line) => Refusal::Faulty(LineFault::Lexical(kind), line),
        LexFault::Memory => Refusal::Memory,
    }
}

/// The refusal of tokens without a tree.
fn refusal_of_parser(text: &[u8], tokens: &[Token], fault: ParseFault) -> Refusal
    requires { IsRefusalOf text.now tokens.now fault }
    ensures { result ≡ refusal_of_parser tokens.now fault }
{
    match fault {
        ParseFault::Syntax(n) => {
            let line = u64::from(tokens[n as usize].line);
            Refusal::Faulty(LineFault::SyntaxError, line)
        }
        ParseFault::Unsupported(n) => {
            let line = u64::from(tokens[n as usize].line);
            Refusal::Faulty(LineFault::Unsupported, line)
        }
        ParseFault::Memory => Refusal::Memory,
    }
}

/// The refusal of a tree without a netlist.
fn refusal_of_tree(fault: BuildFault) -> Refusal
    ensures { result ≡ refusal_of_tree fault }
{
    match fault {
        BuildFault::Memory => Refusal::Memory,
        BuildFault::Unbuilt => Refusal::Unbuilt,
    }
}

/// The tree of a text of at most 64 MiB, whose tokens are dropped.
fn tree_of_text(alloc: Global, text: &[u8]) -> Result<File, Refusal>
    requires { length text.now ≤ netlist_limit }
    ensures ok { IfOk result (λ file.
        netlist_of_text text.now ≡ netlist_of_tree file.modules file.udps file.directives) }
    ensures refused { IfErr result (λ refusal. Tells refusal (netlist_of_text text.now)) }
    ensures text { IfErr result IsOfText }
{
    let tokens = match tokens(alloc, text) {
        Ok(tokens) => tokens,
        Err(fault) => return Err(refusal_of_lexer(fault)),
    };
    match parse(alloc, text, &tokens) {
        Ok(file) => Ok(file),
        Err(fault) => Err(refusal_of_parser(text, tokens.as_slice(), fault)),
    }
}

/// The netlist of a tree, which is dropped.
fn netlist_of_tree(alloc: Global, file: File) -> Result<Netlist, Refusal>
    ensures ok { IfOk result (λ netlist.
        netlist_of_tree file.modules file.udps file.directives ≡ Ok netlist) }
    ensures refused { IfErr result (λ refusal.
        Tells refusal (netlist_of_tree file.modules file.udps file.directives)) }
    ensures text { IfErr result IsOfText }
    ensures sound { IfOk result IsSound }
    ensures distinct { IfOk result (λ netlist. IsTrue (is_distinct netlist.names)) }
{
    match netlist_of(alloc, file) {
        Ok(netlist) => Ok(netlist),
        Err(fault) => Err(refusal_of_tree(fault)),
    }
}

/// The netlist of a text of at most 64 MiB, which is dropped when it has its tree.
pub fn netlist_of_text(alloc: Global, text: Bytes) -> Result<Netlist, Refusal>
    requires { length text ≤ netlist_limit }
    ensures ok { IfOk result (λ netlist. netlist_of_text text ≡ Ok netlist) }
    ensures refused { IfErr result (λ refusal. Tells refusal (netlist_of_text text)) }
    ensures text { IfErr result IsOfText }
    ensures sound { IfOk result IsSound }
    ensures distinct { IfOk result (λ netlist. IsTrue (is_distinct netlist.names)) }
{
    let file = tree_of_text(alloc, text.as_slice())?;
    drop(text);
    netlist_of_tree(alloc, file)
}
