//! Modules and primitives with the name of an earlier one.
ghost use Rattle.std.specs.Prelude.{◌≡◌, ◌++◌, ℕ, List, map, IfOk, OnOk};
ghost use Rattle.module_graph.specs.Names.{described_names, has_earlier, repeated_names};
ghost use Rattle.module_graph.specs.Numbers.{IsWhole};
ghost use Rattle.module_graph.specs.Tokens.{HasTokens};
ghost use Rattle.rule_places.specs.Places.{first_place, places_where};
ghost use Rattle.v_tree.specs.declared.locations.Name.{Name as TheName};

use crate::numbers::NumberTable;
use rule_places::earliest;
use std::alloc::{AllocError, Global};
use v_tree::{Location, Module, ModuleList, Name, UdpDecl, UdpDeclList};

/// Puts the tokens of the modules' names under them.
fn put_modules(table: &mut NumberTable, modules: &[Module]) -> Result<(), AllocError>
    requires { IsWhole table.old }
    ensures whole { OnOk result (IsWhole table.new) }
    ensures tokens { OnOk result ((names : List TheName) → HasTokens names table.old →
        HasTokens (names ++ map (λ m. m.name) modules.now) table.new) }
{
    for module in modules {
        let token = module.name.location.token as usize;
        table.put(module.name.text.as_slice(), token)?;
    }
    Ok(())
}

/// Puts the tokens of the primitives' names under them.
fn put_udps(table: &mut NumberTable, udps: &[UdpDecl]) -> Result<(), AllocError>
    requires { IsWhole table.old }
    ensures whole { OnOk result (IsWhole table.new) }
    ensures tokens { OnOk result ((names : List TheName) → HasTokens names table.old →
        HasTokens (names ++ map (λ u. u.name) udps.now) table.new) }
{
    for udp in udps {
        let token = udp.name.location.token as usize;
        table.put(udp.name.text.as_slice(), token)?;
    }
    Ok(())
}

/// The token of the first of each name.
fn first_tokens(
    alloc: Global,
    modules: &[Module],
    udps: &[UdpDecl],
) -> Result<NumberTable, AllocError>
    ensures { IfOk result (λ table. HasTokens (described_names modules.now udps.now) table) }
{
    let mut table = NumberTable::new(alloc);
    put_modules(&mut table, modules)?;
    put_udps(&mut table, udps)?;
    Ok(table)
}

/// Whether the table has a smaller token under a name than its own.
fn has_earlier(table: &NumberTable, name: &Name) -> bool
    ensures { (names : List TheName) → HasTokens names table.now →
        result ≡ has_earlier names name.now }
{
    match table.least(name.text.as_slice()) {
        Some(token) => token < name.location.token as usize,
        None => false,
    }
}

/// The first place of a module's name that is an earlier one's too.
fn repeated_module(table: &NumberTable, modules: &[Module]) -> Option<Location>
    ensures { (names : List TheName) → HasTokens names table.now →
        result ≡ first_place
        (places_where (λ m. has_earlier names m.name) (λ m. m.name.location) modules.now) }
{
    let mut first = None;
    for module in modules {
        if has_earlier(table, &module.name) {
            first = earliest(first, Some(module.name.location));
        }
    }
    first
}

/// The first place of a primitive's name that is an earlier one's too.
fn repeated_udp(table: &NumberTable, udps: &[UdpDecl]) -> Option<Location>
    ensures { (names : List TheName) → HasTokens names table.now →
        result ≡ first_place
        (places_where (λ u. has_earlier names u.name) (λ u. u.name.location) udps.now) }
{
    let mut first = None;
    for udp in udps {
        if has_earlier(table, &udp.name) {
            first = earliest(first, Some(udp.name.location));
        }
    }
    first
}

/// The first module or primitive in the text that has the name of an earlier one, by its name, and None
/// where all have names of their own (IEEE 1364-2005, 12.1).
pub fn repeated_name(
    alloc: Global,
    modules: &ModuleList,
    udps: &UdpDeclList,
) -> Result<Option<Location>, AllocError>
    ensures { IfOk result (λ place.
        place ≡ first_place (repeated_names modules.now udps.now)) }
{
    let modules = modules.as_slice();
    let udps = udps.as_slice();
    let table = first_tokens(alloc, modules, udps)?;
    Ok(earliest(repeated_module(&table, modules), repeated_udp(&table, udps)))
}
