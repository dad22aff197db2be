//! The uses of names in expressions and targets.
ghost use Rattle.std.specs.Prelude.{◌≡◌, ◌∷◌, [], ◌++◌, OnOk};
ghost use Rattle.module_scope.specs.Mentions.{pick_mention, expr_mentions, exprs_mentions, optional_mentions, target_mentions};

use crate::mentions::MentionList;
use crate::roles::{Role, Side};
use std::alloc::AllocError;
use v_tree::{Expr, Pick, Target};

/// Adds the use of a net or of bits of it.
pub fn push_pick(list: &mut MentionList, side: Side, pick: &Pick) -> Result<(), AllocError>
    ensures { OnOk result (list.new ≡ list.old ++ pick_mention side pick.now ∷ []) }
{
    list.push(Role::Use(side, pick.select), &pick.name)
}

/// Adds the uses in an expression.
pub fn push_expr(list: &mut MentionList, side: Side, expr: &Expr) -> Result<(), AllocError>
    ensures { OnOk result (list.new ≡ list.old ++ expr_mentions side expr.now) }
{
    match expr {
        Expr::Pick(pick) => push_pick(list, side, pick)?,
        Expr::Number(_, _) | Expr::Based(_, _) => {}
        Expr::Concat(_, parts) => {
            for part in parts.as_slice() {
                push_expr(list, side, part)?;
            }
        }
    }
    Ok(())
}

/// Adds the uses in the expressions.
pub fn push_exprs(list: &mut MentionList, side: Side, exprs: &[Expr]) -> Result<(), AllocError>
    ensures { OnOk result (list.new ≡ list.old ++ exprs_mentions side exprs.now) }
{
    for expr in exprs {
        push_expr(list, side, expr)?;
    }
    Ok(())
}

/// Adds the uses in an expression, where there is one.
pub fn push_optional(
    list: &mut MentionList,
    side: Side,
    expr: &Option<Expr>,
) -> Result<(), AllocError>
    ensures { OnOk result (list.new ≡ list.old ++ optional_mentions side expr.now) }
{
    if let Some(expr) = expr {
        push_expr(list, side, expr)?;
    }
    Ok(())
}

/// Adds the uses in the target of an assignment.
pub fn push_target(list: &mut MentionList, target: &Target) -> Result<(), AllocError>
    ensures { OnOk result (list.new ≡ list.old ++ target_mentions target.now) }
{
    match target {
        Target::Pick(pick) => push_pick(list, Side::Target, pick)?,
        Target::Concat(_, parts) => {
            for part in parts.as_slice() {
                push_target(list, part)?;
            }
        }
    }
    Ok(())
}
