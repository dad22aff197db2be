//! Modules.

ghost use Rattle.std.specs.Prelude.{◌≡◌, [], length, ◌<◌, ◌^◌};
ghost use Rattle.v_parser.specs.Input as input;
ghost use Rattle.v_parser.specs.Input.{Reads};
ghost use Rattle.v_parser.specs.Modules as spec;

use crate::blocks::specify_block;
use crate::cursor::Cursor;
use crate::declarations::{
    assign_item, net_decl, net_type_if_there, port_decl, range_if_there, trireg_decl,
};
use crate::directives::cell;
use crate::fault::ParseFault;
use crate::gates::{instance, logic_item, pull_item, switch_item, tran_item};
use crate::lists::{Part, RepeatedPart, comma_list, commas, many};
use crate::words::{sees, word_for};
use sqlite_items::Items;
use v_tree::{
    AnsiEntry, AnsiPort, Direction, Item, LogicGate, Module, ModuleWord, NetType, Ports, PullGate,
    Switch, TranGate,
};

/// A block that is passed over, or an instance.
#[tactic(auto, unfolding(crate::specs::Modules::blocks, crate::specs::Input::choice))]
fn blocks(cursor: &mut Cursor<'_>) -> Result<Item, ParseFault>
    ensures { Reads (spec.blocks cursor.old) result cursor.new }
{
    if cursor.sees_word(b"specify") {
        Ok(Item::Specify(specify_block(cursor)?))
    } else {
        Ok(Item::Instances(instance(cursor)?))
    }
}

/// A cell, or what `blocks` reads.
#[tactic(auto, unfolding(crate::specs::Modules::cells, crate::specs::Input::choice))]
fn cells(cursor: &mut Cursor<'_>) -> Result<Item, ParseFault>
    ensures { Reads (spec.cells cursor.old) result cursor.new }
{
    if cursor.sees_some_directive() {
        Ok(Item::Cell(cell(cursor)?))
    } else {
        blocks(cursor)
    }
}

/// A pull gate, or what `cells` reads.
#[tactic(auto, unfolding(crate::specs::Modules::pulls, crate::specs::Input::choice))]
fn pulls(cursor: &mut Cursor<'_>) -> Result<Item, ParseFault>
    ensures { Reads (spec.pulls cursor.old) result cursor.new }
{
    if sees::<PullGate>(cursor) {
        Ok(Item::Gates(pull_item(cursor)?))
    } else {
        cells(cursor)
    }
}

/// A switch that always conducts, or what `pulls` reads.
#[tactic(auto, unfolding(crate::specs::Modules::trans, crate::specs::Input::choice))]
fn trans(cursor: &mut Cursor<'_>) -> Result<Item, ParseFault>
    ensures { Reads (spec.trans cursor.old) result cursor.new }
{
    if sees::<TranGate>(cursor) {
        Ok(Item::Gates(tran_item(cursor)?))
    } else {
        pulls(cursor)
    }
}

/// A switch, or what `trans` reads.
#[tactic(auto, unfolding(crate::specs::Modules::switches, crate::specs::Input::choice))]
fn switches(cursor: &mut Cursor<'_>) -> Result<Item, ParseFault>
    ensures { Reads (spec.switches cursor.old) result cursor.new }
{
    if sees::<Switch>(cursor) {
        Ok(Item::Gates(switch_item(cursor)?))
    } else {
        trans(cursor)
    }
}

/// A gate, or what `switches` reads.
#[tactic(auto, unfolding(crate::specs::Modules::gates, crate::specs::Input::choice))]
fn gates(cursor: &mut Cursor<'_>) -> Result<Item, ParseFault>
    ensures { Reads (spec.gates cursor.old) result cursor.new }
{
    if sees::<LogicGate>(cursor) {
        Ok(Item::Gates(logic_item(cursor)?))
    } else {
        switches(cursor)
    }
}

/// Assignments, or what `gates` reads.
#[tactic(auto, unfolding(crate::specs::Modules::assigns, crate::specs::Input::choice))]
fn assigns(cursor: &mut Cursor<'_>) -> Result<Item, ParseFault>
    ensures { Reads (spec.assigns cursor.old) result cursor.new }
{
    if cursor.sees_word(b"assign") {
        Ok(Item::Assign(assign_item(cursor)?))
    } else {
        gates(cursor)
    }
}

/// Triregs, or what `assigns` reads.
#[tactic(auto, unfolding(crate::specs::Modules::triregs, crate::specs::Input::choice))]
fn triregs(cursor: &mut Cursor<'_>) -> Result<Item, ParseFault>
    ensures { Reads (spec.triregs cursor.old) result cursor.new }
{
    if cursor.sees_word(b"trireg") {
        Ok(Item::Trireg(trireg_decl(cursor)?))
    } else {
        assigns(cursor)
    }
}

/// Nets, or what `triregs` reads.
#[tactic(auto, unfolding(crate::specs::Modules::nets, crate::specs::Input::choice))]
fn nets(cursor: &mut Cursor<'_>) -> Result<Item, ParseFault>
    ensures { Reads (spec.nets cursor.old) result cursor.new }
{
    if sees::<NetType>(cursor) {
        Ok(Item::Nets(net_decl(cursor)?))
    } else {
        triregs(cursor)
    }
}

/// An item of a module.
#[tactic(auto, unfolding(crate::specs::Modules::module_item, crate::specs::Input::choice))]
fn module_item(cursor: &mut Cursor<'_>) -> Result<Item, ParseFault>
    ensures { Reads (spec.module_item cursor.old) result cursor.new }
{
    if sees::<Direction>(cursor) {
        Ok(Item::Ports(port_decl(cursor)?))
    } else {
        nets(cursor)
    }
}

impl Part for Item {
    ghost use Rattle.v_parser.specs.Modules.{module_item};

    ghost reader = { module_item };

    fn read(cursor: &mut Cursor<'_>) -> Result<Item, ParseFault> {
        module_item(cursor)
    }
}

impl RepeatedPart for Item {
    ghost use Rattle.v_parser.specs.Modules.{ends_module};

    ghost stops = { ends_module };

    fn ends(cursor: &Cursor<'_>) -> bool {
        cursor.sees_word(b"endmodule")
    }
}

/// `dir [ nettype ] [ range ] Name`
#[tactic(auto, unfolding(crate::specs::Modules::ansi_port))]
fn ansi_port(cursor: &mut Cursor<'_>) -> Result<AnsiPort, ParseFault>
    ensures { Reads (spec.ansi_port cursor.old) result cursor.new }
{
    let (direction, location) = word_for::<Direction>(cursor)?;
    let net_type = net_type_if_there(cursor)?;
    let range = range_if_there(cursor)?;
    let name = cursor.name()?;
    Ok(AnsiPort {
        location,
        direction,
        net_type,
        range,
        name,
    })
}

/// A port, or a name alone.
#[tactic(auto, unfolding(crate::specs::Modules::ansi_entry, crate::specs::Input::choice))]
fn ansi_entry(cursor: &mut Cursor<'_>) -> Result<AnsiEntry, ParseFault>
    ensures { Reads (spec.ansi_entry cursor.old) result cursor.new }
{
    if cursor.sees_name() {
        Ok(AnsiEntry::Name(cursor.name()?))
    } else {
        Ok(AnsiEntry::Port(ansi_port(cursor)?))
    }
}

impl Part for AnsiEntry {
    ghost use Rattle.v_parser.specs.Modules.{ansi_entry};

    ghost reader = { ansi_entry };

    fn read(cursor: &mut Cursor<'_>) -> Result<AnsiEntry, ParseFault> {
        ansi_entry(cursor)
    }
}

/// `( )`
#[tactic(auto, unfolding(crate::specs::Modules::empty_ports))]
fn empty_ports(cursor: &mut Cursor<'_>) -> Result<Ports, ParseFault>
    ensures { Reads (spec.empty_ports cursor.old) result cursor.new }
{
    cursor.skip(b'(')?;
    cursor.skip(b')')?;
    Ok(Ports::Empty)
}

/// `( Name , .. )`
#[tactic(auto, unfolding(crate::specs::Modules::named_ports))]
fn named_ports(cursor: &mut Cursor<'_>) -> Result<Ports, ParseFault>
    ensures { Reads (spec.named_ports cursor.old) result cursor.new }
{
    cursor.skip(b'(')?;
    let names = comma_list(cursor)?;
    cursor.skip(b')')?;
    Ok(Ports::Names(names))
}

/// `( port , .. )`
#[tactic(auto, unfolding(crate::specs::Modules::ansi_ports))]
fn ansi_ports(cursor: &mut Cursor<'_>) -> Result<Ports, ParseFault>
    ensures { Reads (spec.ansi_ports cursor.old) result cursor.new }
{
    cursor.skip(b'(')?;
    let first = ansi_port(cursor)?;
    let none = Vec::new(cursor.alloc());
    let others = commas(cursor, none)?;
    cursor.skip(b')')?;
    Ok(Ports::Ansi(first, others))
}

/// The ports of a header, in parentheses.
#[tactic(auto, unfolding(crate::specs::Modules::ports_within, crate::specs::Input::choice))]
fn ports_within(cursor: &mut Cursor<'_>) -> Result<Ports, ParseFault>
    ensures { Reads (spec.ports_within cursor.old) result cursor.new }
{
    if cursor.behind().sees_mark(b')') {
        empty_ports(cursor)
    } else if cursor.behind().sees_name() {
        named_ports(cursor)
    } else {
        ansi_ports(cursor)
    }
}

/// The ports of a header.
#[tactic(auto, unfolding(crate::specs::Modules::header_ports, crate::specs::Input::choice))]
fn header_ports(cursor: &mut Cursor<'_>) -> Result<Ports, ParseFault>
    ensures { Reads (spec.header_ports cursor.old) result cursor.new }
{
    if cursor.sees_mark(b'(') {
        ports_within(cursor)
    } else {
        Ok(Ports::Absent)
    }
}

/// `module Name [ ports ] ; { item } endmodule`
#[tactic(auto, unfolding(crate::specs::Modules::module_at))]
pub fn module_at(cursor: &mut Cursor<'_>) -> Result<Module, ParseFault>
    ensures { Reads (spec.module_at cursor.old) result cursor.new }
{
    let (word, location) = word_for::<ModuleWord>(cursor)?;
    let name = cursor.name()?;
    let ports = header_ports(cursor)?;
    cursor.skip(b';')?;
    let items = many(cursor)?;
    cursor.skip_word(b"endmodule")?;
    Ok(Module {
        location,
        word,
        name,
        ports,
        items,
    })
}
