//! Declarations and assignments.

ghost use Rattle.std.specs.Prelude.{◌≡◌};
ghost use Rattle.v_parser.specs.Input as input;
ghost use Rattle.v_parser.specs.Input.{Reads};
ghost use Rattle.v_parser.specs.Declarations as spec;
ghost use Rattle.v_parser.specs.Expressions.{sees_mark, range};
ghost use Rattle.v_parser.specs.Words as words;

use crate::cursor::Cursor;
use crate::drives::{charge_if_there, delay_if_there, drive_in_parentheses};
use crate::expressions::{expr_at, range, target_at};
use crate::fault::ParseFault;
use crate::lists::{Part, comma_list};
use crate::words::{sees, word_for};
use v_tree::{
    AssignItem, DeclaredNames, Direction, Expr, Name, NetDecl, NetType, Pair, PortDecl,
    RangeBounds, Target, TriregDecl, ValuedName, VectorRange, VectorWord,
};

/// An expression whose concatenations stand at most 64 deep.
#[tactic(auto, unfolding(crate::specs::Declarations::expr))]
pub fn expr(cursor: &mut Cursor<'_>) -> Result<Expr, ParseFault>
    ensures { Reads (spec.expr cursor.old) result cursor.new }
{
    expr_at(cursor, 64)
}

/// A target whose concatenations stand at most 64 deep.
#[tactic(auto, unfolding(crate::specs::Declarations::target))]
fn target(cursor: &mut Cursor<'_>) -> Result<Target, ParseFault>
    ensures { Reads (spec.target cursor.old) result cursor.new }
{
    target_at(cursor, 64)
}

/// A type of nets, without its location.
#[tactic(auto, unfolding(crate::specs::Declarations::net_type))]
fn net_type(cursor: &mut Cursor<'_>) -> Result<NetType, ParseFault>
    ensures { Reads (spec.net_type cursor.old) result cursor.new }
{
    let (net_type, _) = word_for::<NetType>(cursor)?;
    Ok(net_type)
}

/// A type of nets, where one comes next.
#[tactic(auto, unfolding(crate::specs::Input::optional))]
pub fn net_type_if_there(cursor: &mut Cursor<'_>) -> Result<Option<NetType>, ParseFault>
    ensures { Reads (input.optional words.sees_net_type spec.net_type cursor.old) result
        cursor.new }
{
    if sees::<NetType>(cursor) {
        Ok(Some(net_type(cursor)?))
    } else {
        Ok(None)
    }
}

/// A range, where a `[` comes next.
#[tactic(auto, unfolding(crate::specs::Input::optional))]
pub fn range_if_there(cursor: &mut Cursor<'_>) -> Result<Option<RangeBounds>, ParseFault>
    ensures { Reads (input.optional (sees_mark 91) range cursor.old) result cursor.new }
{
    if cursor.sees_mark(b'[') {
        Ok(Some(range(cursor)?))
    } else {
        Ok(None)
    }
}

impl Part for Name {
    ghost use Rattle.v_parser.specs.Input.{name};

    ghost reader = { name };

    fn read(cursor: &mut Cursor<'_>) -> Result<Name, ParseFault> {
        cursor.name()
    }
}

/// `dir [ nettype ] [ range ] Name , .. ;`
#[tactic(auto, unfolding(crate::specs::Declarations::port_decl))]
pub fn port_decl(cursor: &mut Cursor<'_>) -> Result<PortDecl, ParseFault>
    ensures { Reads (spec.port_decl cursor.old) result cursor.new }
{
    let (direction, location) = word_for::<Direction>(cursor)?;
    let net_type = net_type_if_there(cursor)?;
    let range = range_if_there(cursor)?;
    let names = comma_list(cursor)?;
    cursor.skip(b';')?;
    Ok(PortDecl {
        location,
        direction,
        net_type,
        range,
        names,
    })
}

/// A word before a range, without its location.
#[tactic(auto, unfolding(crate::specs::Declarations::range_word))]
fn range_word(cursor: &mut Cursor<'_>) -> Result<VectorWord, ParseFault>
    ensures { Reads (spec.range_word cursor.old) result cursor.new }
{
    let (word, _) = word_for::<VectorWord>(cursor)?;
    Ok(word)
}

/// A word before a range, where one comes next.
#[tactic(auto, unfolding(crate::specs::Input::optional))]
fn vector_word_if_there(cursor: &mut Cursor<'_>) -> Result<Option<VectorWord>, ParseFault>
    ensures { Reads (input.optional words.sees_vector_word spec.range_word cursor.old)
        result cursor.new }
{
    if sees::<VectorWord>(cursor) {
        Ok(Some(range_word(cursor)?))
    } else {
        Ok(None)
    }
}

/// A range, with a word before it or without one.
#[tactic(auto, unfolding(crate::specs::Declarations::vector_range))]
fn vector_range(cursor: &mut Cursor<'_>) -> Result<VectorRange, ParseFault>
    ensures { Reads (spec.vector_range cursor.old) result cursor.new }
{
    let word = vector_word_if_there(cursor)?;
    let range = range(cursor)?;
    Ok(VectorRange { word, range })
}

/// A vector_range, where it begins.
#[tactic(auto, unfolding(crate::specs::Input::optional))]
fn vector_range_if_there(cursor: &mut Cursor<'_>) -> Result<Option<VectorRange>, ParseFault>
    ensures { Reads (input.optional spec.begins_vector_range spec.vector_range cursor.old) result
        cursor.new }
{
    if sees::<VectorWord>(cursor) || cursor.sees_mark(b'[') {
        Ok(Some(vector_range(cursor)?))
    } else {
        Ok(None)
    }
}

/// `Name = expr`
#[tactic(auto, unfolding(crate::specs::Declarations::valued_name))]
fn valued_name(cursor: &mut Cursor<'_>) -> Result<ValuedName, ParseFault>
    ensures { Reads (spec.valued_name cursor.old) result cursor.new }
{
    let name = cursor.name()?;
    cursor.skip(b'=')?;
    let value = expr(cursor)?;
    Ok(ValuedName { name, value })
}

impl Part for ValuedName {
    ghost use Rattle.v_parser.specs.Declarations.{valued_name};

    ghost reader = { valued_name };

    fn read(cursor: &mut Cursor<'_>) -> Result<ValuedName, ParseFault> {
        valued_name(cursor)
    }
}

/// Names alone, or names with values.
#[tactic(auto, unfolding(crate::specs::Declarations::declared_names, crate::specs::Input::choice))]
fn declared_names(cursor: &mut Cursor<'_>) -> Result<DeclaredNames, ParseFault>
    ensures { Reads (spec.declared_names cursor.old) result cursor.new }
{
    if cursor.behind().sees_mark(b'=') {
        Ok(DeclaredNames::Valued(comma_list(cursor)?))
    } else {
        Ok(DeclaredNames::Names(comma_list(cursor)?))
    }
}

/// `nettype [ drive ] [ vector_range ] [ delay ] declared_names ;`
#[tactic(auto, unfolding(crate::specs::Declarations::net_decl))]
pub fn net_decl(cursor: &mut Cursor<'_>) -> Result<NetDecl, ParseFault>
    ensures { Reads (spec.net_decl cursor.old) result cursor.new }
{
    let (net_type, location) = word_for::<NetType>(cursor)?;
    let drive = drive_in_parentheses(cursor)?;
    let vector_range = vector_range_if_there(cursor)?;
    let delay = delay_if_there(cursor)?;
    let declared_names = declared_names(cursor)?;
    cursor.skip(b';')?;
    Ok(NetDecl {
        location,
        net_type,
        drive,
        vector_range,
        delay,
        declared_names,
    })
}

/// `trireg [ charge ] [ vector_range ] [ delay ] Name , .. ;`
#[tactic(auto, unfolding(crate::specs::Declarations::trireg_decl))]
pub fn trireg_decl(cursor: &mut Cursor<'_>) -> Result<TriregDecl, ParseFault>
    ensures { Reads (spec.trireg_decl cursor.old) result cursor.new }
{
    let location = cursor.word(b"trireg")?;
    let charge = charge_if_there(cursor)?;
    let vector_range = vector_range_if_there(cursor)?;
    let delay = delay_if_there(cursor)?;
    let names = comma_list(cursor)?;
    cursor.skip(b';')?;
    Ok(TriregDecl {
        location,
        charge,
        vector_range,
        delay,
        names,
    })
}

/// `target = expr`
#[tactic(auto, unfolding(crate::specs::Declarations::pair))]
fn pair(cursor: &mut Cursor<'_>) -> Result<Pair, ParseFault>
    ensures { Reads (spec.pair cursor.old) result cursor.new }
{
    let target = target(cursor)?;
    cursor.skip(b'=')?;
    let value = expr(cursor)?;
    Ok(Pair { target, value })
}

impl Part for Pair {
    ghost use Rattle.v_parser.specs.Declarations.{pair};

    ghost reader = { pair };

    fn read(cursor: &mut Cursor<'_>) -> Result<Pair, ParseFault> {
        pair(cursor)
    }
}

/// `assign [ drive ] [ delay ] pair , .. ;`
#[tactic(auto, unfolding(crate::specs::Declarations::assign_item))]
pub fn assign_item(cursor: &mut Cursor<'_>) -> Result<AssignItem, ParseFault>
    ensures { Reads (spec.assign_item cursor.old) result cursor.new }
{
    let location = cursor.word(b"assign")?;
    let drive = drive_in_parentheses(cursor)?;
    let delay = delay_if_there(cursor)?;
    let pairs = comma_list(cursor)?;
    cursor.skip(b';')?;
    Ok(AssignItem {
        location,
        drive,
        delay,
        pairs,
    })
}
