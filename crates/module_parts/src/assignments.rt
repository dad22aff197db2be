//! Assignments, with the bits of their two sides.
ghost use Rattle.std.specs.Prelude.{◌≡◌, ◌∷◌, [], ◌++◌, map, IfOk, OnOk};
ghost use Rattle.std.specs.List.{flat_map};
ghost use Rattle.module_parts.specs.Parts.{assignment, declared_parts, pair_part, target_runs, valued_parts};

use crate::names::{name_texts, text_of};
use crate::parts::{ModulePart, PairPart, PartList};
use byte_lists::NameList;
use expression_bits::{BitRun, RunList, pick_run, runs_width, value_runs};
use module_scope::Scope;
use sqlite_items::Items;
use std::alloc::{AllocError, Global};
use v_tree::{DeclaredNames, Expr, Name, Pair, Target, ValuedName};

/// Adds the runs of a target.
fn push_target(alloc: Global, runs: &mut RunList, target: &Target) -> Result<(), AllocError>
    ensures { OnOk result (runs.new ≡ runs.old ++ target_runs target.now) }
{
    match target {
        Target::Pick(pick) => runs.push(pick_run(alloc, pick)?)?,
        Target::Concat(_, parts) => {
            for part in parts.as_slice() {
                push_target(alloc, runs, part)?;
            }
        }
    }
    Ok(())
}

/// The runs of a target.
fn target_runs(alloc: Global, target: &Target) -> Result<RunList, AllocError>
    ensures { IfOk result (λ runs. runs ≡ target_runs target.now) }
{
    let mut runs = Items::new(alloc);
    push_target(alloc, &mut runs, target)?;
    Ok(runs)
}

/// A number of bits that can be held. More bits than a `usize` counts are want of memory.
fn bit_count(width: u128) -> Result<usize, AllocError>
    ensures { IfOk result (λ count. count ≡ width) }
{
    if width > usize::MAX as u128 {
        return Err(AllocError);
    }
    Ok(width as usize)
}

/// The assignment of an expression to runs, of the item of an index.
fn assignment(
    alloc: Global,
    scope: &Scope,
    item: usize,
    target: RunList,
    value: &Expr,
) -> Result<ModulePart, AllocError>
    ensures { IfOk result (λ part. part ≡ assignment scope.now item target value.now) }
{
    let width = bit_count(runs_width(scope, target.as_slice()))?;
    Ok(ModulePart::Pair(PairPart {
        item,
        value: value_runs(alloc, scope, width, value)?,
        target,
    }))
}

/// An assignment of the item of an index.
fn pair_part(
    alloc: Global,
    scope: &Scope,
    item: usize,
    pair: &Pair,
) -> Result<ModulePart, AllocError>
    ensures { IfOk result (λ part. part ≡ pair_part scope.now item pair.now) }
{
    let target = target_runs(alloc, &pair.target)?;
    assignment(alloc, scope, item, target, &pair.value)
}

/// Adds the assignments of the item of an index.
pub fn push_pairs(
    alloc: Global,
    parts: &mut PartList,
    scope: &Scope,
    item: usize,
    pairs: &[Pair],
) -> Result<(), AllocError>
    ensures { OnOk result (parts.new ≡ parts.old ++ map (pair_part scope.now item) pairs.now) }
{
    for pair in pairs {
        parts.push(pair_part(alloc, scope, item, pair)?)?;
    }
    Ok(())
}

/// One name, which is declared.
fn one_name(alloc: Global, name: &Name) -> Result<ModulePart, AllocError>
    ensures { IfOk result (λ part. part ≡ ModulePart.Names (name.now.text ∷ [])) }
{
    let mut texts = Vec::new(alloc);
    texts.push(text_of(alloc, name)?)?;
    Ok(ModulePart::Names(NameList::from_vec(texts)))
}

/// The run of a net as a whole.
fn whole_net(alloc: Global, name: &Name) -> Result<RunList, AllocError>
    ensures { IfOk result (λ runs. runs ≡ BitRun.Net name.now.text None ∷ []) }
{
    let mut runs = Items::new(alloc);
    runs.push(BitRun::Net(text_of(alloc, name)?, None))?;
    Ok(runs)
}

/// Adds a name that is declared and assigned.
fn push_valued(
    alloc: Global,
    parts: &mut PartList,
    scope: &Scope,
    item: usize,
    valued: &ValuedName,
) -> Result<(), AllocError>
    ensures { OnOk result (parts.new ≡ parts.old ++ valued_parts scope.now item valued.now) }
{
    parts.push(one_name(alloc, &valued.name)?)?;
    let target = whole_net(alloc, &valued.name)?;
    parts.push(assignment(alloc, scope, item, target, &valued.value)?)?;
    Ok(())
}

/// Adds names that are declared and assigned.
fn push_all_valued(
    alloc: Global,
    parts: &mut PartList,
    scope: &Scope,
    item: usize,
    names: &[ValuedName],
) -> Result<(), AllocError>
    ensures { OnOk result (parts.new
        ≡ parts.old ++ flat_map (valued_parts scope.now item) names.now) }
{
    for valued in names {
        push_valued(alloc, parts, scope, item, valued)?;
    }
    Ok(())
}

/// Adds what a declaration of nets declares.
pub fn push_declared(
    alloc: Global,
    parts: &mut PartList,
    scope: &Scope,
    item: usize,
    declared: &DeclaredNames,
) -> Result<(), AllocError>
    ensures { OnOk result (parts.new ≡ parts.old ++ declared_parts scope.now item declared.now) }
{
    match declared {
        DeclaredNames::Names(names) => {
            parts.push(ModulePart::Names(name_texts(alloc, names.as_slice())?))
        }
        DeclaredNames::Valued(names) => {
            push_all_valued(alloc, parts, scope, item, names.as_slice())
        }
    }
}
