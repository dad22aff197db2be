//! User-defined primitives.

ghost use Rattle.std.specs.Prelude.{◌≡◌, codes};
ghost use Rattle.v_parser.specs.Input as input;
ghost use Rattle.v_parser.specs.Input.{Reads};
ghost use Rattle.v_parser.specs.Expressions.{sees_mark};
ghost use Rattle.v_parser.specs.Modules.{sees_word};
ghost use Rattle.v_parser.specs.Primitives as spec;

use crate::cursor::Cursor;
use crate::fault::ParseFault;
use crate::lists::{Part, RepeatedPart, comma_list, commas, many};
use sqlite_items::Items;
use v_tree::{Lit, PlacedRowList, UdpDecl, UdpInitial, UdpInput, UdpItem, UdpItemList, UdpPorts};

/// Whether a word is there, which is passed.
#[tactic(auto, unfolding(crate::specs::Primitives::flag, crate::specs::Input::optional))]
fn flag(cursor: &mut Cursor<'_>, word: &[u8]) -> Result<bool, ParseFault>
    ensures { Reads (spec.flag word.now cursor.old) result cursor.new }
{
    if cursor.sees_word(word) {
        cursor.skip_word(word)?;
        Ok(true)
    } else {
        Ok(false)
    }
}

/// A literal.
#[tactic(auto, unfolding(crate::specs::Primitives::lit, crate::specs::Input::choice))]
fn lit(cursor: &mut Cursor<'_>) -> Result<Lit, ParseFault>
    ensures { Reads (spec.lit cursor.old) result cursor.new }
{
    if cursor.sees_number() {
        let (value, location) = cursor.placed_number()?;
        Ok(Lit::Number(location, value))
    } else {
        let (literal, location) = cursor.placed_based()?;
        Ok(Lit::Based(location, literal))
    }
}

/// `= lit`
#[tactic(auto, unfolding(crate::specs::Primitives::start))]
fn start(cursor: &mut Cursor<'_>) -> Result<Lit, ParseFault>
    ensures { Reads (spec.start cursor.old) result cursor.new }
{
    cursor.skip(b'=')?;
    lit(cursor)
}

/// `= lit`, where a `=` comes next.
#[tactic(auto, unfolding(crate::specs::Input::optional))]
fn start_if_there(cursor: &mut Cursor<'_>) -> Result<Option<Lit>, ParseFault>
    ensures { Reads (input.optional (sees_mark 61) spec.start cursor.old) result cursor.new }
{
    if cursor.sees_mark(b'=') {
        Ok(Some(start(cursor)?))
    } else {
        Ok(None)
    }
}

/// `[ input ] Name`
#[tactic(auto, unfolding(crate::specs::Primitives::udp_input))]
fn udp_input(cursor: &mut Cursor<'_>) -> Result<UdpInput, ParseFault>
    ensures { Reads (spec.udp_input cursor.old) result cursor.new }
{
    let has_word = flag(cursor, b"input")?;
    let name = cursor.name()?;
    Ok(UdpInput { has_word, name })
}

impl Part for UdpInput {
    ghost use Rattle.v_parser.specs.Primitives.{udp_input};

    ghost reader = { udp_input };

    fn read(cursor: &mut Cursor<'_>) -> Result<UdpInput, ParseFault> {
        udp_input(cursor)
    }
}

/// `( Name , .. )`
#[tactic(auto, unfolding(crate::specs::Primitives::named_header))]
fn named_header(cursor: &mut Cursor<'_>) -> Result<UdpPorts, ParseFault>
    ensures { Reads (spec.named_header cursor.old) result cursor.new }
{
    cursor.skip(b'(')?;
    let names = comma_list(cursor)?;
    cursor.skip(b')')?;
    Ok(UdpPorts::Names(names))
}

/// `( output [ reg ] Name [ = lit ] { , [ input ] Name } )`
#[tactic(auto, unfolding(crate::specs::Primitives::declared_header))]
fn declared_header(cursor: &mut Cursor<'_>) -> Result<UdpPorts, ParseFault>
    ensures { Reads (spec.declared_header cursor.old) result cursor.new }
{
    cursor.skip(b'(')?;
    cursor.skip_word(b"output")?;
    let is_reg = flag(cursor, b"reg")?;
    let output = cursor.name()?;
    let start = start_if_there(cursor)?;
    let none = Vec::new(cursor.alloc());
    let inputs = commas(cursor, none)?;
    cursor.skip(b')')?;
    Ok(UdpPorts::Declared {
        is_reg,
        output,
        start,
        inputs,
    })
}

/// The ports in parentheses.
#[tactic(auto, unfolding(crate::specs::Primitives::header, crate::specs::Input::choice))]
fn header(cursor: &mut Cursor<'_>) -> Result<UdpPorts, ParseFault>
    ensures { Reads (spec.header cursor.old) result cursor.new }
{
    if cursor.behind().sees_word(b"output") {
        declared_header(cursor)
    } else {
        named_header(cursor)
    }
}

/// `output [ reg ] Name [ = lit ] ;`
#[tactic(auto, unfolding(crate::specs::Primitives::output_item))]
fn output_item(cursor: &mut Cursor<'_>) -> Result<UdpItem, ParseFault>
    ensures { Reads (spec.output_item cursor.old) result cursor.new }
{
    let location = cursor.word(b"output")?;
    let is_reg = flag(cursor, b"reg")?;
    let name = cursor.name()?;
    let start = start_if_there(cursor)?;
    cursor.skip(b';')?;
    Ok(UdpItem::Output {
        location,
        is_reg,
        name,
        start,
    })
}

/// `input Name , .. ;`
#[tactic(auto, unfolding(crate::specs::Primitives::input_item))]
fn input_item(cursor: &mut Cursor<'_>) -> Result<UdpItem, ParseFault>
    ensures { Reads (spec.input_item cursor.old) result cursor.new }
{
    let location = cursor.word(b"input")?;
    let names = comma_list(cursor)?;
    cursor.skip(b';')?;
    Ok(UdpItem::Input(location, names))
}

/// `reg Name ;`
#[tactic(auto, unfolding(crate::specs::Primitives::reg_item))]
fn reg_item(cursor: &mut Cursor<'_>) -> Result<UdpItem, ParseFault>
    ensures { Reads (spec.reg_item cursor.old) result cursor.new }
{
    let location = cursor.word(b"reg")?;
    let name = cursor.name()?;
    cursor.skip(b';')?;
    Ok(UdpItem::Reg(location, name))
}

/// An input or a register.
#[tactic(auto, unfolding(crate::specs::Primitives::other_item, crate::specs::Input::choice))]
fn other_item(cursor: &mut Cursor<'_>) -> Result<UdpItem, ParseFault>
    ensures { Reads (spec.other_item cursor.old) result cursor.new }
{
    if cursor.sees_word(b"input") {
        input_item(cursor)
    } else {
        reg_item(cursor)
    }
}

/// A declaration.
#[tactic(auto, unfolding(crate::specs::Primitives::udp_item, crate::specs::Input::choice))]
fn udp_item(cursor: &mut Cursor<'_>) -> Result<UdpItem, ParseFault>
    ensures { Reads (spec.udp_item cursor.old) result cursor.new }
{
    if cursor.sees_word(b"output") {
        output_item(cursor)
    } else {
        other_item(cursor)
    }
}

impl Part for UdpItem {
    ghost use Rattle.v_parser.specs.Primitives.{udp_item};

    ghost reader = { udp_item };

    fn read(cursor: &mut Cursor<'_>) -> Result<UdpItem, ParseFault> {
        udp_item(cursor)
    }
}

impl RepeatedPart for UdpItem {
    ghost use Rattle.v_parser.specs.Primitives.{ends_items};

    ghost stops = { ends_items };

    fn ends(cursor: &Cursor<'_>) -> bool {
        !(cursor.sees_word(b"output") || cursor.sees_word(b"input") || cursor.sees_word(b"reg"))
    }
}

/// `initial Name = lit ;`
#[tactic(auto, unfolding(crate::specs::Primitives::initial))]
fn initial(cursor: &mut Cursor<'_>) -> Result<UdpInitial, ParseFault>
    ensures { Reads (spec.initial cursor.old) result cursor.new }
{
    let location = cursor.word(b"initial")?;
    let name = cursor.name()?;
    cursor.skip(b'=')?;
    let value = lit(cursor)?;
    cursor.skip(b';')?;
    Ok(UdpInitial {
        location,
        name,
        value,
    })
}

/// `initial Name = lit ;`, where the word comes next.
#[tactic(auto, unfolding(crate::specs::Input::optional))]
fn initial_if_there(cursor: &mut Cursor<'_>) -> Result<Option<UdpInitial>, ParseFault>
    ensures { Reads (input.optional
        (sees_word (codes "initial")) spec.initial cursor.old) result cursor.new }
{
    if cursor.sees_word(b"initial") {
        Ok(Some(initial(cursor)?))
    } else {
        Ok(None)
    }
}

/// `table { row } endtable`
#[tactic(auto, unfolding(crate::specs::Primitives::table))]
fn table(cursor: &mut Cursor<'_>) -> Result<PlacedRowList, ParseFault>
    ensures { Reads (spec.table cursor.old) result cursor.new }
{
    cursor.skip_word(b"table")?;
    let rows = many(cursor)?;
    cursor.skip_word(b"endtable")?;
    Ok(rows)
}

/// `endprimitive`
#[tactic(auto, unfolding(crate::specs::Primitives::ending))]
fn ending(cursor: &mut Cursor<'_>) -> Result<(), ParseFault>
    ensures { Reads (spec.ending cursor.old) result cursor.new }
{
    cursor.skip_word(b"endprimitive")
}

/// `{ declaration } [ initial ] table { row } endtable endprimitive`
#[tactic(auto, unfolding(crate::specs::Primitives::body))]
fn body(
    cursor: &mut Cursor<'_>,
) -> Result<(UdpItemList, Option<UdpInitial>, PlacedRowList), ParseFault>
    ensures { Reads (spec.body cursor.old) result cursor.new }
{
    let items = many(cursor)?;
    let initial = initial_if_there(cursor)?;
    let rows = table(cursor)?;
    ending(cursor)?;
    Ok((items, initial, rows))
}

/// `primitive Name ( ports ) ;` and the body.
#[tactic(auto, unfolding(crate::specs::Primitives::udp))]
pub fn udp(cursor: &mut Cursor<'_>) -> Result<UdpDecl, ParseFault>
    ensures { Reads (spec.udp cursor.old) result cursor.new }
{
    let location = cursor.word(b"primitive")?;
    let name = cursor.name()?;
    let ports = header(cursor)?;
    cursor.skip(b';')?;
    let (items, initial, rows) = body(cursor)?;
    Ok(UdpDecl {
        location,
        name,
        ports,
        items,
        initial,
        rows,
    })
}
