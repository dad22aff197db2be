//! Gates, switches and instances.

ghost use Rattle.std.specs.Prelude.{◌≡◌};
ghost use Rattle.v_parser.specs.Input as input;
ghost use Rattle.v_parser.specs.Input.{Reads};
ghost use Rattle.v_parser.specs.Gates as spec;
ghost use Rattle.v_parser.specs.Declarations as declarations;
ghost use Rattle.v_parser.specs.Expressions.{sees_name};

use crate::cursor::Cursor;
use crate::declarations::expr;
use crate::drives::{delay_if_there, drive_if_there, pull_levels_if_there};
use crate::fault::ParseFault;
use crate::lists::{Part, comma_list};
use crate::words::word_for;
use v_tree::{
    Connection, Connections, Expr, GateItem, GateKind, Inst, Instance, LogicGate, Name, PullGate,
    Switch, Terms, TranGate,
};

/// A name, where one comes next.
#[tactic(auto, unfolding(crate::specs::Input::optional))]
fn name_if_there(cursor: &mut Cursor<'_>) -> Result<Option<Name>, ParseFault>
    ensures { Reads (input.optional sees_name input.name cursor.old) result cursor.new }
{
    if cursor.sees_name() {
        Ok(Some(cursor.name()?))
    } else {
        Ok(None)
    }
}

impl Part for Expr {
    ghost use Rattle.v_parser.specs.Declarations.{expr};

    ghost reader = { expr };

    fn read(cursor: &mut Cursor<'_>) -> Result<Expr, ParseFault> {
        expr(cursor)
    }
}

/// `[ Name ] ( expr , .. )`
#[tactic(auto, unfolding(crate::specs::Gates::terms))]
fn terms(cursor: &mut Cursor<'_>) -> Result<Terms, ParseFault>
    ensures { Reads (spec.terms cursor.old) result cursor.new }
{
    let name = name_if_there(cursor)?;
    let paren = cursor.mark(b'(')?;
    let terminals = comma_list(cursor)?;
    cursor.skip(b')')?;
    Ok(Terms {
        name,
        paren,
        terminals,
    })
}

impl Part for Terms {
    ghost use Rattle.v_parser.specs.Gates.{terms};

    ghost reader = { terms };

    fn read(cursor: &mut Cursor<'_>) -> Result<Terms, ParseFault> {
        terms(cursor)
    }
}

/// `logic [ drive ] [ delay ] terms , .. ;`
#[tactic(auto, unfolding(crate::specs::Gates::logic_item))]
pub fn logic_item(cursor: &mut Cursor<'_>) -> Result<GateItem, ParseFault>
    ensures { Reads (spec.logic_item cursor.old) result cursor.new }
{
    let (gate, location) = word_for::<LogicGate>(cursor)?;
    let drive = drive_if_there(cursor)?;
    let delay = delay_if_there(cursor)?;
    let gates = comma_list(cursor)?;
    cursor.skip(b';')?;
    Ok(GateItem {
        location,
        kind: GateKind::Logic(gate, drive, delay),
        gates,
    })
}

/// `switch [ delay ] terms , .. ;`
#[tactic(auto, unfolding(crate::specs::Gates::switch_item))]
pub fn switch_item(cursor: &mut Cursor<'_>) -> Result<GateItem, ParseFault>
    ensures { Reads (spec.switch_item cursor.old) result cursor.new }
{
    let (switch, location) = word_for::<Switch>(cursor)?;
    let delay = delay_if_there(cursor)?;
    let gates = comma_list(cursor)?;
    cursor.skip(b';')?;
    Ok(GateItem {
        location,
        kind: GateKind::Switch(switch, delay),
        gates,
    })
}

/// `tran terms , .. ;`
#[tactic(auto, unfolding(crate::specs::Gates::tran_item))]
pub fn tran_item(cursor: &mut Cursor<'_>) -> Result<GateItem, ParseFault>
    ensures { Reads (spec.tran_item cursor.old) result cursor.new }
{
    let (tran, location) = word_for::<TranGate>(cursor)?;
    let gates = comma_list(cursor)?;
    cursor.skip(b';')?;
    Ok(GateItem {
        location,
        kind: GateKind::Tran(tran),
        gates,
    })
}

/// `pull [ ( level [ , level ] ) ] terms , .. ;`
#[tactic(auto, unfolding(crate::specs::Gates::pull_item))]
pub fn pull_item(cursor: &mut Cursor<'_>) -> Result<GateItem, ParseFault>
    ensures { Reads (spec.pull_item cursor.old) result cursor.new }
{
    let (pull, location) = word_for::<PullGate>(cursor)?;
    let levels = pull_levels_if_there(cursor)?;
    let gates = comma_list(cursor)?;
    cursor.skip(b';')?;
    Ok(GateItem {
        location,
        kind: GateKind::Pull(pull, levels),
        gates,
    })
}

/// Whether an expression comes next.
fn begins_expr(cursor: &Cursor<'_>) -> bool
    ensures { result ≡ spec.begins_expr (input.front cursor.now)
        (input.front (input.next cursor.now)) }
{
    cursor.sees_name() || cursor.sees_number() || cursor.sees_based() || cursor.sees_mark(b'{')
}

/// An expression, where one comes next.
#[tactic(auto, unfolding(crate::specs::Input::optional))]
fn expr_if_there(cursor: &mut Cursor<'_>) -> Result<Option<Expr>, ParseFault>
    ensures { Reads (input.optional spec.begins_expr declarations.expr cursor.old) result
        cursor.new }
{
    if begins_expr(cursor) {
        Ok(Some(expr(cursor)?))
    } else {
        Ok(None)
    }
}

impl Part for Option<Expr> {
    ghost use Rattle.v_parser.specs.Input.{optional};
    ghost use Rattle.v_parser.specs.Declarations.{expr};
    ghost use Rattle.v_parser.specs.Gates.{begins_expr};

    ghost reader = { optional begins_expr expr };

    fn read(cursor: &mut Cursor<'_>) -> Result<Option<Expr>, ParseFault> {
        expr_if_there(cursor)
    }
}

/// `. Name ( [ expr ] )`
#[tactic(auto, unfolding(crate::specs::Gates::connection))]
fn connection(cursor: &mut Cursor<'_>) -> Result<Connection, ParseFault>
    ensures { Reads (spec.connection cursor.old) result cursor.new }
{
    let location = cursor.mark(b'.')?;
    let port = cursor.name()?;
    cursor.skip(b'(')?;
    let value = expr_if_there(cursor)?;
    cursor.skip(b')')?;
    Ok(Connection {
        location,
        port,
        value,
    })
}

impl Part for Connection {
    ghost use Rattle.v_parser.specs.Gates.{connection};

    ghost reader = { connection };

    fn read(cursor: &mut Cursor<'_>) -> Result<Connection, ParseFault> {
        connection(cursor)
    }
}

/// Connections by name, or by order.
#[tactic(auto, unfolding(crate::specs::Gates::connections, crate::specs::Input::choice))]
fn connections(cursor: &mut Cursor<'_>) -> Result<Connections, ParseFault>
    ensures { Reads (spec.connections cursor.old) result cursor.new }
{
    if cursor.sees_mark(b'.') {
        Ok(Connections::ByName(comma_list(cursor)?))
    } else {
        Ok(Connections::ByOrder(comma_list(cursor)?))
    }
}

/// `[ Name ] ( connections )`
#[tactic(auto, unfolding(crate::specs::Gates::inst))]
fn inst(cursor: &mut Cursor<'_>) -> Result<Inst, ParseFault>
    ensures { Reads (spec.inst cursor.old) result cursor.new }
{
    let name = name_if_there(cursor)?;
    let paren = cursor.mark(b'(')?;
    let connections = connections(cursor)?;
    cursor.skip(b')')?;
    Ok(Inst {
        name,
        paren,
        connections,
    })
}

impl Part for Inst {
    ghost use Rattle.v_parser.specs.Gates.{inst};

    ghost reader = { inst };

    fn read(cursor: &mut Cursor<'_>) -> Result<Inst, ParseFault> {
        inst(cursor)
    }
}

/// `Name [ drive ] [ delay ] inst , .. ;`
#[tactic(auto, unfolding(crate::specs::Gates::instance))]
pub fn instance(cursor: &mut Cursor<'_>) -> Result<Instance, ParseFault>
    ensures { Reads (spec.instance cursor.old) result cursor.new }
{
    let name = cursor.name()?;
    let drive = drive_if_there(cursor)?;
    let delay = delay_if_there(cursor)?;
    let instances = comma_list(cursor)?;
    cursor.skip(b';')?;
    Ok(Instance {
        name,
        drive,
        delay,
        instances,
    })
}
