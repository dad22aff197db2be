//! The names of a module's items.
ghost use Rattle.std.specs.Prelude.{◌≡◌, ◌++◌, OnOk, IfOk};
ghost use Rattle.std.specs.List.{flat_map};
ghost use Rattle.module_scope.specs.Mentions.{port_role, vector_bounds, delay_at, net_delay, net_role, charge_of, trireg_role, valued_mentions, declared_mentions, pair_mentions, terms_mentions, connection_mentions, connections_mentions, optional_mentions, inst_mentions, item_mentions, items_mentions, mentions_in};
ghost use Rattle.module_scope.specs.declared.roles.Side.TheVariants.{Connection as connection_side};

use crate::expressions::{push_expr, push_exprs, push_optional, push_target};
use crate::headers::{push_header, push_name, push_names};
use crate::mentions::MentionList;
use crate::roles::{NetKind, NetRole, PortRole, Role, Side};
use std::alloc::{AllocError, Global};
use v_tree::{
    Charge, Connection, Connections, DeclaredNames, DelaySpec, Expr, Inst, Item, Module, NetDecl,
    Pair, PortDecl, RangeBounds, Terms, TriregDecl, ValuedName, VectorRange,
};

/// What a declaration says of its ports.
fn port_role(decl: &PortDecl) -> PortRole
    ensures { result ≡ port_role decl.now }
{
    PortRole {
        direction: decl.direction,
        net_type: decl.net_type,
        range: decl.range,
    }
}

/// The range, where there is one.
fn vector_bounds(range: Option<VectorRange>) -> Option<RangeBounds>
    ensures { result ≡ vector_bounds range }
{
    match range {
        Some(vector) => Some(vector.range),
        None => None,
    }
}

/// The index of the item, where it has a delay.
fn delay_at(index: usize, delay: &Option<DelaySpec>) -> Option<usize>
    ensures { result ≡ delay_at index delay.now }
{
    if delay.is_some() { Some(index) } else { None }
}

/// The index of the item, where it has a delay that is that of its nets: before names that are
/// assigned it is that of the assignments (IEEE 1364-2005, 6.1.3).
fn net_delay(index: usize, names: &DeclaredNames, delay: &Option<DelaySpec>) -> Option<usize>
    ensures { result ≡ net_delay index names.now delay.now }
{
    match names {
        DeclaredNames::Names(_) => delay_at(index, delay),
        DeclaredNames::Valued(_) => None,
    }
}

/// What a declaration, which is the item with this index, says of its nets.
fn net_role(index: usize, decl: &NetDecl) -> NetRole
    ensures { result ≡ net_role index decl.now }
{
    NetRole {
        kind: NetKind::Typed(decl.net_type),
        range: vector_bounds(decl.vector_range),
        delay: net_delay(index, &decl.declared_names, &decl.delay),
    }
}

/// The charge that is written, else medium (IEEE 1364-2005, 4.4.1).
fn charge_of(charge: Option<Charge>) -> Charge
    ensures { result ≡ charge_of charge }
{
    match charge {
        Some(charge) => charge,
        None => Charge::Medium,
    }
}

/// What a declaration, which is the item with this index, says of its triregs.
fn trireg_role(index: usize, decl: &TriregDecl) -> NetRole
    ensures { result ≡ trireg_role index decl.now }
{
    NetRole {
        kind: NetKind::Trireg(charge_of(decl.charge)),
        range: vector_bounds(decl.vector_range),
        delay: delay_at(index, &decl.delay),
    }
}

/// Adds names that are declared and assigned.
fn push_valued(list: &mut MentionList, net: NetRole, names: &[ValuedName]) -> Result<(), AllocError>
    ensures { OnOk result (list.new ≡ list.old ++ flat_map (valued_mentions net) names.now) }
{
    for valued in names {
        list.push(Role::Net(net), &valued.name)?;
        push_expr(list, Side::Value, &valued.value)?;
    }
    Ok(())
}

/// Adds the names of a declaration of nets.
fn push_declared(
    list: &mut MentionList,
    net: NetRole,
    names: &DeclaredNames,
) -> Result<(), AllocError>
    ensures { OnOk result (list.new ≡ list.old ++ declared_mentions net names.now) }
{
    match names {
        DeclaredNames::Names(names) => push_names(list, Role::Net(net), names.as_slice()),
        DeclaredNames::Valued(names) => push_valued(list, net, names.as_slice()),
    }
}

/// Adds the names of assignments.
fn push_pairs(list: &mut MentionList, pairs: &[Pair]) -> Result<(), AllocError>
    ensures { OnOk result (list.new ≡ list.old ++ flat_map pair_mentions pairs.now) }
{
    for pair in pairs {
        push_target(list, &pair.target)?;
        push_expr(list, Side::Value, &pair.value)?;
    }
    Ok(())
}

/// Adds the names of gates.
fn push_gates(list: &mut MentionList, gates: &[Terms]) -> Result<(), AllocError>
    ensures { OnOk result (list.new ≡ list.old ++ flat_map terms_mentions gates.now) }
{
    for terms in gates {
        push_name(list, Role::Instance, &terms.name)?;
        push_exprs(list, Side::Terminal, terms.terminals.as_slice())?;
    }
    Ok(())
}

/// Adds the names of connections by order.
fn push_ordered(list: &mut MentionList, values: &[Option<Expr>]) -> Result<(), AllocError>
    ensures { OnOk result (list.new
        ≡ list.old ++ flat_map (optional_mentions connection_side) values.now) }
{
    for value in values {
        push_optional(list, Side::Connection, value)?;
    }
    Ok(())
}

/// Adds the names of connections by name.
fn push_named(list: &mut MentionList, connections: &[Connection]) -> Result<(), AllocError>
    ensures { OnOk result (list.new ≡ list.old ++ flat_map connection_mentions connections.now) }
{
    for connection in connections {
        push_optional(list, Side::Connection, &connection.value)?;
    }
    Ok(())
}

/// Adds the names of an instance's connections.
fn push_connections(list: &mut MentionList, connections: &Connections) -> Result<(), AllocError>
    ensures { OnOk result (list.new ≡ list.old ++ connections_mentions connections.now) }
{
    match connections {
        Connections::ByOrder(values) => push_ordered(list, values.as_slice()),
        Connections::ByName(connections) => push_named(list, connections.as_slice()),
    }
}

/// Adds the names of instances.
fn push_instances(list: &mut MentionList, instances: &[Inst]) -> Result<(), AllocError>
    ensures { OnOk result (list.new ≡ list.old ++ flat_map inst_mentions instances.now) }
{
    for inst in instances {
        push_name(list, Role::Instance, &inst.name)?;
        push_connections(list, &inst.connections)?;
    }
    Ok(())
}

/// Adds the names of the item with this index.
fn push_item(list: &mut MentionList, index: usize, item: &Item) -> Result<(), AllocError>
    ensures { OnOk result (list.new ≡ list.old ++ item_mentions index item.now) }
{
    match item {
        Item::Ports(decl) => push_names(list, Role::Port(port_role(decl)), decl.names.as_slice()),
        Item::Nets(decl) => push_declared(list, net_role(index, decl), &decl.declared_names),
        Item::Trireg(decl) => push_names(
            list,
            Role::Net(trireg_role(index, decl)),
            decl.names.as_slice(),
        ),
        Item::Assign(assign) => push_pairs(list, assign.pairs.as_slice()),
        Item::Gates(gates) => push_gates(list, gates.gates.as_slice()),
        Item::Instances(instance) => push_instances(list, instance.instances.as_slice()),
        Item::Cell(_) | Item::Specify(_) => Ok(()),
    }
}

/// Adds the names of the items.
fn push_items(list: &mut MentionList, items: &[Item]) -> Result<(), AllocError>
    ensures { OnOk result (list.new ≡ list.old ++ items_mentions 0 items.now) }
{
    for (index, item) in items.iter().enumerate() {
        push_item(list, index, item)?;
    }
    Ok(())
}

/// All that a module mentions.
pub fn mentions_in(alloc: Global, module: &Module) -> Result<MentionList, AllocError>
    ensures { IfOk result (λ list. list ≡ mentions_in «module».now) }
{
    let mut list = MentionList::new(alloc);
    push_header(&mut list, &module.ports)?;
    push_items(&mut list, module.items.as_slice())?;
    Ok(list)
}
