//! The rows of a table.

ghost use Rattle.std.specs.Prelude.{◌≡◌, IfOk};
ghost use Rattle.v_parser.specs.Input as input;
ghost use Rattle.v_parser.specs.Input.{Reads};
ghost use Rattle.v_parser.specs.Primitives as spec;

use crate::cursor::Cursor;
use crate::fault::ParseFault;
use crate::lists::{Part, RepeatedPart, some};
use sqlite_items::Items;
use std::alloc::{AllocError, Global};
use udp_table::{Base, Sym, SymList, UdpRow};
use v_tree::PlacedRow;

/// What a symbol stands for, where it is that of a value.
#[tactic(auto, unfolding(crate::specs::Primitives::base_of, crate::specs::Primitives::base_table))]
fn base_of(byte: u8) -> Option<Base>
    ensures { result ≡ spec.base_of byte }
{
    match byte {
        b'0' => Some(Base::Zero),
        b'1' => Some(Base::One),
        b'x' => Some(Base::X),
        b'?' => Some(Base::Any),
        b'b' => Some(Base::Both),
        _ => None,
    }
}

/// What a symbol stands for, where it is a field alone.
#[tactic(auto, unfolding(crate::specs::Primitives::sym_of, crate::specs::Primitives::sym_table))]
fn sym_of(byte: u8) -> Option<Sym>
    ensures { result ≡ spec.sym_of byte }
{
    match byte {
        b'0' => Some(Sym::Zero),
        b'1' => Some(Sym::One),
        b'x' => Some(Sym::X),
        b'?' => Some(Sym::Any),
        b'b' => Some(Sym::Both),
        b'-' => Some(Sym::Same),
        b'r' => Some(Sym::Rise),
        b'f' => Some(Sym::Fall),
        b'p' => Some(Sym::Pos),
        b'n' => Some(Sym::Neg),
        b'*' => Some(Sym::Change),
        _ => None,
    }
}

/// What the next token stands for, where it is a value.
fn base_seen(cursor: &Cursor<'_>) -> Option<Base>
    ensures { result ≡ spec.base_in (input.front cursor.now) }
{
    match cursor.seen_symbol() {
        Some(byte) => base_of(byte),
        None => None,
    }
}

/// What the next token stands for, where it is a field alone.
fn sym_seen(cursor: &Cursor<'_>) -> Option<Sym>
    ensures { result ≡ spec.sym_in (input.front cursor.now) }
{
    match cursor.seen_symbol() {
        Some(byte) => sym_of(byte),
        None => None,
    }
}

/// A value.
#[tactic(auto, unfolding(crate::specs::Primitives::base))]
fn base(cursor: &mut Cursor<'_>) -> Result<Base, ParseFault>
    ensures { Reads (spec.base cursor.old) result cursor.new }
{
    match base_seen(cursor) {
        Some(found) => {
            cursor.advance();
            Ok(found)
        }
        None => Err(cursor.refuse()),
    }
}

/// A field of one symbol.
#[tactic(auto, unfolding(crate::specs::Primitives::single))]
fn single(cursor: &mut Cursor<'_>) -> Result<Sym, ParseFault>
    ensures { Reads (spec.single cursor.old) result cursor.new }
{
    match sym_seen(cursor) {
        Some(found) => {
            cursor.advance();
            Ok(found)
        }
        None => Err(cursor.refuse()),
    }
}

/// `( base base )`
#[tactic(auto, unfolding(crate::specs::Primitives::edge))]
fn edge(cursor: &mut Cursor<'_>) -> Result<Sym, ParseFault>
    ensures { Reads (spec.edge cursor.old) result cursor.new }
{
    cursor.skip_symbol(b'(')?;
    let from = base(cursor)?;
    let to = base(cursor)?;
    cursor.skip_symbol(b')')?;
    Ok(Sym::Edge(from, to))
}

/// A field.
#[tactic(auto, unfolding(crate::specs::Primitives::field, crate::specs::Input::choice))]
fn field(cursor: &mut Cursor<'_>) -> Result<Sym, ParseFault>
    ensures { Reads (spec.field cursor.old) result cursor.new }
{
    if cursor.sees_symbol(b'(') {
        edge(cursor)
    } else {
        single(cursor)
    }
}

impl Part for Sym {
    ghost use Rattle.v_parser.specs.Primitives.{field};

    ghost reader = { field };

    fn read(cursor: &mut Cursor<'_>) -> Result<Sym, ParseFault> {
        field(cursor)
    }
}

impl RepeatedPart for Sym {
    ghost use Rattle.v_parser.specs.Input.{is_symbol};

    ghost stops = { is_symbol 58 };

    fn ends(cursor: &Cursor<'_>) -> bool {
        cursor.sees_symbol(b':')
    }
}

/// `: field`
#[tactic(auto, unfolding(crate::specs::Primitives::output))]
fn output(cursor: &mut Cursor<'_>) -> Result<Sym, ParseFault>
    ensures { Reads (spec.output cursor.old) result cursor.new }
{
    cursor.skip_symbol(b':')?;
    field(cursor)
}

/// `: field`, where a `:` comes next.
#[tactic(auto, unfolding(crate::specs::Input::optional))]
fn output_if_there(cursor: &mut Cursor<'_>) -> Result<Option<Sym>, ParseFault>
    ensures { Reads (input.optional
        (spec.sees_symbol 58) spec.output cursor.old) result cursor.new }
{
    if cursor.sees_symbol(b':') {
        Ok(Some(output(cursor)?))
    } else {
        Ok(None)
    }
}

/// `[ field : ] field`: the present state, where it is there, and the output.
#[tactic(auto, unfolding(crate::specs::Primitives::outcome))]
fn outcome(cursor: &mut Cursor<'_>) -> Result<(Option<Sym>, Sym), ParseFault>
    ensures { Reads (spec.outcome cursor.old) result cursor.new }
{
    let first = field(cursor)?;
    match output_if_there(cursor)? {
        Some(out) => Ok((Some(first), out)),
        None => Ok((None, first)),
    }
}

/// The symbols of a list.
fn symbols_of(alloc: Global, found: Items<Sym>) -> Result<SymList, AllocError>
    ensures { IfOk result (λ symbols. symbols ≡ found) }
{
    Ok(SymList::from_vec(found.as_slice().to_vec(alloc)?))
}

/// `field .. : [ field : ] field ;`
#[tactic(auto, unfolding(crate::specs::Primitives::row))]
fn row(cursor: &mut Cursor<'_>) -> Result<UdpRow, ParseFault>
    ensures { Reads (spec.row cursor.old) result cursor.new }
{
    let found = some(cursor)?;
    let ins = symbols_of(cursor.alloc(), found)?;
    cursor.skip_symbol(b':')?;
    let (state, out) = outcome(cursor)?;
    cursor.skip_symbol(b';')?;
    Ok(UdpRow { ins, state, out })
}

/// A row, with the location of its first token.
#[tactic(auto, unfolding(crate::specs::Primitives::placed_row))]
fn placed_row(cursor: &mut Cursor<'_>) -> Result<PlacedRow, ParseFault>
    ensures { Reads (spec.placed_row cursor.old) result cursor.new }
{
    let location = cursor.location();
    let row = row(cursor)?;
    Ok(PlacedRow { location, row })
}

impl Part for PlacedRow {
    ghost use Rattle.v_parser.specs.Primitives.{placed_row};

    ghost reader = { placed_row };

    fn read(cursor: &mut Cursor<'_>) -> Result<PlacedRow, ParseFault> {
        placed_row(cursor)
    }
}

impl RepeatedPart for PlacedRow {
    ghost use Rattle.v_parser.specs.Primitives.{ends_table};

    ghost stops = { ends_table };

    fn ends(cursor: &Cursor<'_>) -> bool {
        cursor.sees_word(b"endtable")
    }
}
