//! From the tree of a file to declarations.
ghost use Rattle.std.specs.Prelude.{◌≡◌, ℕ, List, IfOk, IsTrue};
ghost use Rattle.gate_net.specs.Sound.{IsSound};
ghost use Rattle.name_table.specs.Names.{is_distinct};
ghost use Rattle.gate_net.specs.Steps.{Gives, each};
ghost use Rattle.first_netlist.specs.Declarations.{module_view, with_read_items};
ghost use Rattle.first_netlist.specs.Form.{flat_names, header_of, whole_net, terminal_of, gate_with, instance_of, ports_to, ports_in, wires_among, is_wire, wires_in, is_nand, gates_among, gates_in, item_of, module_declarations, declarations_in, netlist_of};

use crate::elaborate::meaning;
use crate::names::{flat_name, flat_names, name_if_there};
use crate::tree::{Direction, Instance, InstanceList, Item, Module, add_item};
use byte_lists::{Bytes, NameList};
use gate_net::{BuildFault, Netlist};
use std::alloc::Global;
use v_lexer::ReservedWords;
use v_tree::{
    DeclaredNames, Directive, Expr, File, GateItem, GateKind, LogicGate, Name, NetDecl, NetType,
    Pick, PortDecl, Ports, Terms, UdpDecl,
};

/// The ports that a header names, where it doesn't declare them.
#[tactic(auto, unfolding(crate::specs::Form::header_of))]
fn header_of(alloc: Global, words: &ReservedWords, ports: &Ports) -> Result<Vec<Bytes>, BuildFault>
    ensures { Gives (λ names. names.items) result (header_of ports.now) }
{
    match ports {
        Ports::Absent | Ports::Empty => Ok(Vec::new(alloc)),
        Ports::Names(names) => Ok(flat_names(alloc, words, names.as_slice())?),
        Ports::Ansi(_, _) => Err(BuildFault::Unbuilt),
    }
}

/// The flat names of the names, as a list.
fn name_list(alloc: Global, words: &ReservedWords, names: &[Name]) -> Result<NameList, BuildFault>
    ensures { Gives (λ flat. flat) result (Some (flat_names names.now)) }
{
    Ok(NameList::from_vec(flat_names(alloc, words, names)?))
}

/// The net, where no bits of it are selected.
#[tactic(auto, unfolding(crate::specs::Form::whole_net))]
fn whole_net(alloc: Global, words: &ReservedWords, pick: &Pick) -> Result<Bytes, BuildFault>
    ensures { Gives (λ net. net) result (whole_net pick.now) }
{
    if pick.select.is_none() {
        Ok(flat_name(alloc, words, pick.name.text.as_slice())?)
    } else {
        Err(BuildFault::Unbuilt)
    }
}

/// The net that a terminal is.
#[tactic(auto, unfolding(crate::specs::Form::net_of))]
fn terminal_of(alloc: Global, words: &ReservedWords, expr: &Expr) -> Result<Bytes, BuildFault>
    ensures { Gives (λ net. net) result (terminal_of expr.now) }
{
    match expr {
        Expr::Pick(pick) => whole_net(alloc, words, pick),
        _ => Err(BuildFault::Unbuilt),
    }
}

/// The nets that the terminals are.
fn terminals_of(
    alloc: Global,
    words: &ReservedWords,
    exprs: &[Expr],
) -> Result<Vec<Bytes>, BuildFault>
    ensures { Gives (λ nets. nets.items) result (each terminal_of exprs.now) }
{
    let mut nets = Vec::new(alloc);
    for expr in exprs {
        nets.push(terminal_of(alloc, words, expr)?)?;
    }
    Ok(nets)
}

/// The gate with these terminals, of which the first is the output.
#[tactic(auto, unfolding(crate::specs::Form::gate_with))]
fn gate_with(
    alloc: Global,
    words: &ReservedWords,
    name: Option<Bytes>,
    terminals: &[Expr],
) -> Result<Instance, BuildFault>
    ensures { Gives (λ gate. gate) result (gate_with name terminals.now) }
{
    match terminals {
        [] => Err(BuildFault::Unbuilt),
        [first, others @ ..] => {
            let output = terminal_of(alloc, words, first)?;
            let inputs = NameList::from_vec(terminals_of(alloc, words, others)?);
            Ok(Instance {
                name,
                output,
                inputs,
            })
        }
    }
}

/// The gate, with its name where it has one.
fn instance_of(alloc: Global, words: &ReservedWords, terms: &Terms) -> Result<Instance, BuildFault>
    ensures { Gives (λ gate. gate) result (instance_of terms.now) }
{
    let name = name_if_there(alloc, words, &terms.name)?;
    gate_with(alloc, words, name, terms.terminals.as_slice())
}

/// The gates.
fn instances_of(
    alloc: Global,
    words: &ReservedWords,
    gates: &[Terms],
) -> Result<Vec<Instance>, BuildFault>
    ensures { Gives (λ instances. instances.items) result (each instance_of gates.now) }
{
    let mut instances = Vec::new(alloc);
    for terms in gates {
        instances.push(instance_of(alloc, words, terms)?)?;
    }
    Ok(instances)
}

/// Inputs or outputs of these names.
#[tactic(auto, unfolding(crate::specs::Form::ports_to))]
fn ports_to(direction: v_tree::Direction, names: NameList) -> Result<Item, BuildFault>
    ensures { Gives (λ item. item) result (ports_to direction names) }
{
    match direction {
        v_tree::Direction::Input => Ok(Item::Ports(Direction::Input, names)),
        v_tree::Direction::Output => Ok(Item::Ports(Direction::Output, names)),
        v_tree::Direction::Inout => Err(BuildFault::Unbuilt),
    }
}

/// Inputs or outputs, where they have neither a type nor a range.
#[tactic(auto, unfolding(crate::specs::Form::ports_in))]
fn ports_in(alloc: Global, words: &ReservedWords, decl: &PortDecl) -> Result<Item, BuildFault>
    ensures { Gives (λ item. item) result (ports_in decl.now) }
{
    if decl.net_type.is_none() && decl.range.is_none() {
        let names = name_list(alloc, words, decl.names.as_slice())?;
        ports_to(decl.direction, names)
    } else {
        Err(BuildFault::Unbuilt)
    }
}

/// Wires of these names, where they aren't assigned.
#[tactic(auto, unfolding(crate::specs::Form::wires_among))]
fn wires_among(
    alloc: Global,
    words: &ReservedWords,
    declared: &DeclaredNames,
) -> Result<Item, BuildFault>
    ensures { Gives (λ item. item) result (wires_among «declared».now) }
{
    match declared {
        DeclaredNames::Names(names) => Ok(Item::Wires(name_list(alloc, words, names.as_slice())?)),
        DeclaredNames::Valued(_) => Err(BuildFault::Unbuilt),
    }
}

/// Whether the type is `wire`.
#[tactic(auto, unfolding(crate::specs::Form::is_wire))]
fn is_wire(net_type: NetType) -> bool
    ensures { result ≡ is_wire net_type }
{
    matches!(net_type, NetType::Wire)
}

/// Wires, where they have neither a drive nor a range nor a delay.
#[tactic(auto, unfolding(crate::specs::Form::wires_in))]
fn wires_in(alloc: Global, words: &ReservedWords, decl: &NetDecl) -> Result<Item, BuildFault>
    ensures { Gives (λ item. item) result (wires_in decl.now) }
{
    if is_wire(decl.net_type)
        && decl.drive.is_none()
        && decl.vector_range.is_none()
        && decl.delay.is_none()
    {
        wires_among(alloc, words, &decl.declared_names)
    } else {
        Err(BuildFault::Unbuilt)
    }
}

/// Whether the gates are nand gates without a drive and a delay.
#[tactic(auto, unfolding(crate::specs::Form::is_nand))]
fn is_nand(kind: &GateKind) -> bool
    ensures { result ≡ is_nand kind.now }
{
    matches!(kind, GateKind::Logic(LogicGate::Nand, None, None))
}

/// The gates, as an item.
#[tactic(auto, unfolding(crate::specs::Form::gates_among))]
fn gates_among(alloc: Global, words: &ReservedWords, gates: &[Terms]) -> Result<Item, BuildFault>
    ensures { Gives (λ item. item) result (gates_among gates.now) }
{
    let instances = instances_of(alloc, words, gates)?;
    Ok(Item::Gates(InstanceList::from_vec(instances)))
}

/// Nand gates.
#[tactic(auto, unfolding(crate::specs::Form::gates_in))]
fn gates_in(alloc: Global, words: &ReservedWords, decl: &GateItem) -> Result<Item, BuildFault>
    ensures { Gives (λ item. item) result (gates_in decl.now) }
{
    if is_nand(&decl.kind) {
        gates_among(alloc, words, decl.gates.as_slice())
    } else {
        Err(BuildFault::Unbuilt)
    }
}

/// Ports, wires or gates.
#[tactic(auto, unfolding(crate::specs::Form::item_of))]
fn item_of(alloc: Global, words: &ReservedWords, item: &v_tree::Item) -> Result<Item, BuildFault>
    ensures { Gives (λ item. item) result (item_of item.now) }
{
    match item {
        v_tree::Item::Ports(decl) => ports_in(alloc, words, decl),
        v_tree::Item::Nets(decl) => wires_in(alloc, words, decl),
        v_tree::Item::Gates(decl) => gates_in(alloc, words, decl),
        _ => Err(BuildFault::Unbuilt),
    }
}

/// Adds what the items declare.
fn items_of(
    alloc: Global,
    words: &ReservedWords,
    mut module: Module,
    items: &[v_tree::Item],
) -> Result<Module, BuildFault>
    ensures { Gives module_view result
        (with_read_items (module_view «module») (each item_of items.now)) }
{
    for item in items {
        add_item(&mut module, item_of(alloc, words, item)?)?;
    }
    Ok(module)
}

/// What a module declares.
#[tactic(auto, unfolding(crate::specs::Form::module_declarations))]
fn module_declarations(
    alloc: Global,
    words: &ReservedWords,
    module: &v_tree::Module,
) -> Result<Module, BuildFault>
    ensures { Gives module_view result (module_declarations «module».now) }
{
    let header = header_of(alloc, words, &module.ports)?;
    let declared = Module {
        header,
        inputs: Vec::new(alloc),
        outputs: Vec::new(alloc),
        wires: Vec::new(alloc),
        gates: Vec::new(alloc),
    };
    items_of(alloc, words, declared, module.items.as_slice())
}

/// What the one module declares, where there is neither a primitive nor a directive.
#[tactic(auto, unfolding(crate::specs::Form::declarations_in))]
pub fn declarations_in(
    alloc: Global,
    words: &ReservedWords,
    modules: &[v_tree::Module],
    udps: &[UdpDecl],
    directives: &[Directive],
) -> Result<Module, BuildFault>
    ensures { Gives module_view result (declarations_in modules.now udps.now directives.now) }
{
    match (modules, udps, directives) {
        ([module], [], []) => module_declarations(alloc, words, module),
        _ => Err(BuildFault::Unbuilt),
    }
}

/// The netlist of a file of the first form: one module of nand gates without delay, and neither a
/// primitive nor a directive, without cells and specify blocks.
/// Its header has names alone, and each is declared once as an input or an output, without a type and
/// a range. Its other nets are wires without a drive, a range, a delay and a value. Each gate has an
/// output and one input at least, and each terminal is a whole net that is declared. No net has two
/// drivers, where an input is one, and no gate has the name of a net or of another gate. There are
/// 1,048,576 nets at most, and as many gates.
///
/// Each net has its flat name in the top module: a plain name as it is, and another as it is written,
/// `\`, its text and one space (IEEE 1364-2005, 3.7.1).
///
/// The file is dropped when what it declares was copied.
///
/// `Unbuilt` comes exactly where the file is outside the form, unless memory runs out first.
#[tactic(auto, unfolding(crate::specs::Form::netlist_of))]
pub fn netlist_of(alloc: Global, file: File) -> Result<Netlist, BuildFault>
    ensures exact { Gives (λ netlist. netlist) result
        (netlist_of file.modules file.udps file.directives) }
    ensures sound { IfOk result IsSound }
    ensures distinct { IfOk result (λ netlist. IsTrue (is_distinct netlist.names)) }
{
    let words = ReservedWords::new(alloc)?;
    let module = declarations_in(
        alloc,
        &words,
        file.modules.as_slice(),
        file.udps.as_slice(),
        file.directives.as_slice(),
    )?;
    drop(file);
    meaning(alloc, &module)
}
