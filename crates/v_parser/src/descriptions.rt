//! Modules, primitives and directives up to the end of a text.

ghost use Rattle.std.specs.Prelude.{◌≡◌, ◌++◌, OnOk};
ghost use Rattle.v_parser.specs.Input as input;
ghost use Rattle.v_parser.specs.Input.{Reads};
ghost use Rattle.v_parser.specs.Descriptions as spec;
ghost use Rattle.v_parser.specs.Reading.{ReadsSorted};
ghost use Rattle.v_tree.specs.Tree.{module_of, udp_of, directive_of};

use crate::cursor::Cursor;
use crate::directives::directive;
use crate::fault::ParseFault;
use crate::lists::into_items;
use crate::modules::module_at;
use crate::primitives::udp;
use std::alloc::AllocError;
use v_tree::{Description, Directive, DirectiveList, Module, ModuleList, UdpDecl, UdpDeclList};

/// A directive, or a module.
#[tactic(auto, unfolding(crate::specs::Descriptions::others, crate::specs::Input::choice))]
fn others(cursor: &mut Cursor<'_>) -> Result<Description, ParseFault>
    ensures { Reads (spec.others cursor.old) result cursor.new }
{
    if cursor.sees_some_directive() {
        Ok(Description::Directive(directive(cursor)?))
    } else {
        Ok(Description::Module(module_at(cursor)?))
    }
}

/// A module, a primitive or a directive.
#[tactic(auto, unfolding(crate::specs::Descriptions::description, crate::specs::Input::choice))]
fn description(cursor: &mut Cursor<'_>) -> Result<Description, ParseFault>
    ensures { Reads (spec.description cursor.old) result cursor.new }
{
    if cursor.sees_word(b"primitive") {
        Ok(Description::Udp(udp(cursor)?))
    } else {
        others(cursor)
    }
}

/// Puts a description behind those of its kind.
fn put(
    modules: &mut Vec<Module>,
    udps: &mut Vec<UdpDecl>,
    directives: &mut Vec<Directive>,
    found: Description,
) -> Result<(), AllocError>
    ensures modules { OnOk result (modules.new.items ≡ modules.old.items ++ module_of found) }
    ensures udps { OnOk result (udps.new.items ≡ udps.old.items ++ udp_of found) }
    ensures directives { OnOk result
        (directives.new.items ≡ directives.old.items ++ directive_of found) }
{
    match found {
        Description::Module(module) => modules.push(module)?,
        Description::Udp(udp) => udps.push(udp)?,
        Description::Directive(directive) => directives.push(directive)?,
    }
    Ok(())
}

/// Modules, primitives and directives apart.
pub type Lists = (ModuleList, UdpDeclList, DirectiveList);

/// Modules, primitives and directives up to the end of the text.
fn sort_descriptions(cursor: &mut Cursor<'_>) -> Result<Lists, ParseFault>
    ensures { ReadsSorted
        (input.many input.is_finish spec.description cursor.old) result cursor.new }
{
    let mut modules = Vec::new(cursor.alloc());
    let mut udps = Vec::new(cursor.alloc());
    let mut directives = Vec::new(cursor.alloc());
    for _ in 0..cursor.left() {
        if cursor.sees_finish() {
            return Ok((
                into_items(modules),
                into_items(udps),
                into_items(directives),
            ));
        }
        let found = description(cursor)?;
        put(&mut modules, &mut udps, &mut directives, found)?;
    }
    Ok((
        into_items(modules),
        into_items(udps),
        into_items(directives),
    ))
}

/// Modules, primitives and directives, and the end of the text.
pub fn descriptions(cursor: &mut Cursor<'_>) -> Result<Lists, ParseFault>
    ensures { ReadsSorted (spec.descriptions cursor.old) result cursor.new }
{
    let lists = sort_descriptions(cursor)?;
    cursor.finish()?;
    Ok(lists)
}
