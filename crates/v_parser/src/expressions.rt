//! Ranges, selects, expressions and targets.

ghost use Rattle.std.specs.Prelude.{◌≡◌, ◌<◌, ◌≤◌};
ghost use Rattle.v_parser.specs.Input as input;
ghost use Rattle.v_parser.specs.Input.{Reads};
ghost use Rattle.v_parser.specs.Expressions as spec;

use crate::cursor::Cursor;
use crate::fault::ParseFault;
use crate::lists::{into_items, passes_comma};
use v_tree::{Expr, ExprList, Pick, RangeBounds, Select, Target, TargetList};

/// `[ number : number ]`
#[tactic(auto, unfolding(crate::specs::Expressions::range))]
pub fn range(cursor: &mut Cursor<'_>) -> Result<RangeBounds, ParseFault>
    ensures { Reads (spec.range cursor.old) result cursor.new }
{
    cursor.skip(b'[')?;
    let left = cursor.number()?;
    cursor.skip(b':')?;
    let right = cursor.number()?;
    cursor.skip(b']')?;
    Ok(RangeBounds { left, right })
}

/// `: number`
#[tactic(auto, unfolding(crate::specs::Expressions::bound))]
fn bound(cursor: &mut Cursor<'_>) -> Result<u32, ParseFault>
    ensures { Reads (spec.bound cursor.old) result cursor.new }
{
    cursor.skip(b':')?;
    cursor.number()
}

/// `: number`, where a `:` comes next.
#[tactic(auto, unfolding(crate::specs::Input::optional))]
fn bound_if_there(cursor: &mut Cursor<'_>) -> Result<Option<u32>, ParseFault>
    ensures { Reads (input.optional (spec.sees_mark 58) spec.bound cursor.old) result cursor.new }
{
    if cursor.sees_mark(b':') {
        Ok(Some(bound(cursor)?))
    } else {
        Ok(None)
    }
}

/// `[ number ]` or `[ number : number ]`
#[tactic(auto, unfolding(crate::specs::Expressions::select))]
fn select(cursor: &mut Cursor<'_>) -> Result<Select, ParseFault>
    ensures { Reads (spec.select cursor.old) result cursor.new }
{
    cursor.skip(b'[')?;
    let left = cursor.number()?;
    let right = bound_if_there(cursor)?;
    cursor.skip(b']')?;
    Ok(Select { left, right })
}

/// A select, where a `[` comes next.
#[tactic(auto, unfolding(crate::specs::Input::optional))]
fn select_if_there(cursor: &mut Cursor<'_>) -> Result<Option<Select>, ParseFault>
    ensures { Reads (input.optional (spec.sees_mark 91) spec.select cursor.old) result cursor.new }
{
    if cursor.sees_mark(b'[') {
        Ok(Some(select(cursor)?))
    } else {
        Ok(None)
    }
}

/// A name, with a select or without one.
#[tactic(auto, unfolding(crate::specs::Expressions::pick))]
fn pick(cursor: &mut Cursor<'_>) -> Result<Pick, ParseFault>
    ensures { Reads (spec.pick cursor.old) result cursor.new }
{
    let name = cursor.name()?;
    let select = select_if_there(cursor)?;
    Ok(Pick { name, select })
}

/// A pick, a number or a based number.
#[tactic(auto, unfolding(crate::specs::Expressions::atom, crate::specs::Input::choice))]
fn atom(cursor: &mut Cursor<'_>) -> Result<Expr, ParseFault>
    ensures { Reads (spec.atom cursor.old) result cursor.new }
{
    if cursor.sees_name() {
        return Ok(Expr::Pick(pick(cursor)?));
    }
    if cursor.sees_number() {
        let (value, location) = cursor.placed_number()?;
        return Ok(Expr::Number(location, value));
    }
    let (literal, location) = cursor.placed_based()?;
    Ok(Expr::Based(location, literal))
}

/// Expressions with commas between, with concatenations so deep at most.
#[cycle(expr)]
#[tactic(auto, unfolding(crate::specs::Input::comma_list, crate::specs::Input::commas, crate::specs::Input::commas_from))]
fn exprs_at(cursor: &mut Cursor<'_>, depth: u32) -> Result<ExprList, ParseFault>
    ensures { Reads (input.comma_list (spec.expr_at depth) cursor.old) result cursor.new }
{
    let mut parts = Vec::new(cursor.alloc());
    parts.push(expr_at(cursor, depth)?)?;
    for _ in 0..cursor.left() {
        if !passes_comma(cursor) {
            return Ok(into_items(parts));
        }
        parts.push(expr_at(cursor, depth)?)?;
    }
    Ok(into_items(parts))
}

/// An expression with concatenations so deep at most.
#[cycle(expr)]
#[tactic(auto, unfolding(crate::specs::Expressions::expr_at, crate::specs::Input::choice))]
pub fn expr_at(cursor: &mut Cursor<'_>, depth: u32) -> Result<Expr, ParseFault>
    ensures { Reads (spec.expr_at depth cursor.old) result cursor.new }
{
    if depth == 0 {
        return atom(cursor);
    }
    if !cursor.sees_mark(b'{') {
        return atom(cursor);
    }
    let location = cursor.mark(b'{')?;
    let parts = exprs_at(cursor, depth - 1)?;
    cursor.skip(b'}')?;
    Ok(Expr::Concat(location, parts))
}

/// Targets with commas between, with concatenations so deep at most.
#[cycle(target)]
#[tactic(auto, unfolding(crate::specs::Input::comma_list, crate::specs::Input::commas, crate::specs::Input::commas_from))]
fn targets_at(cursor: &mut Cursor<'_>, depth: u32) -> Result<TargetList, ParseFault>
    ensures { Reads (input.comma_list (spec.target_at depth) cursor.old) result cursor.new }
{
    let mut parts = Vec::new(cursor.alloc());
    parts.push(target_at(cursor, depth)?)?;
    for _ in 0..cursor.left() {
        if !passes_comma(cursor) {
            return Ok(into_items(parts));
        }
        parts.push(target_at(cursor, depth)?)?;
    }
    Ok(into_items(parts))
}

/// A target with concatenations so deep at most.
#[cycle(target)]
#[tactic(auto, unfolding(crate::specs::Expressions::target_at, crate::specs::Input::choice))]
pub fn target_at(cursor: &mut Cursor<'_>, depth: u32) -> Result<Target, ParseFault>
    ensures { Reads (spec.target_at depth cursor.old) result cursor.new }
{
    if depth == 0 {
        return Ok(Target::Pick(pick(cursor)?));
    }
    if !cursor.sees_mark(b'{') {
        return Ok(Target::Pick(pick(cursor)?));
    }
    let location = cursor.mark(b'{')?;
    let parts = targets_at(cursor, depth - 1)?;
    cursor.skip(b'}')?;
    Ok(Target::Concat(location, parts))
}
