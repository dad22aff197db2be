//! Trees as the tables of tests have them.

use byte_lists::Bytes;
use std::alloc::AllocError;
use std::fmt::Write;
use udp_table::{Base, Sym};
use v_lexer::{Bit, Literal};
use v_parser::ParseFault;
use v_tree::*;

fn show_bytes(shown: &mut String, bytes: &[u8]) -> Result<(), AllocError> {
    for byte in bytes {
        shown.push(char::from(*byte))?;
    }
    Ok(())
}

fn show_names(shown: &mut String, names: &PlacedNameList) -> Result<(), AllocError> {
    for (i, name) in names.as_slice().iter().enumerate() {
        if i > 0 {
            shown.push(',')?;
        }
        show_bytes(shown, name.text.as_slice())?;
    }
    Ok(())
}

fn show_range(shown: &mut String, range: &RangeBounds) -> Result<(), AllocError> {
    let RangeBounds { left, right } = *range;
    write!(shown, "[{left}:{right}] ")?;
    Ok(())
}

fn show_pick(shown: &mut String, pick: &Pick) -> Result<(), AllocError> {
    show_bytes(shown, pick.name.text.as_slice())?;
    match &pick.select {
        Some(select) => {
            let left = select.left;
            match select.right {
                Some(right) => write!(shown, "[{left}:{right}]")?,
                None => write!(shown, "[{left}]")?,
            }
        }
        None => {}
    }
    Ok(())
}

fn bit_letter(bit: Bit) -> char {
    match bit {
        Bit::Zero => '0',
        Bit::One => '1',
        Bit::X => 'x',
        Bit::Z => 'z',
    }
}

fn show_literal(shown: &mut String, literal: &Literal) -> Result<(), AllocError> {
    match literal.size {
        Some(size) => write!(shown, "{size}b")?,
        None => {
            shown.push('-')?;
            shown.push(bit_letter(literal.extension))?;
            shown.push('b')?;
        }
    }
    for bit in literal.bits.as_slice() {
        shown.push(bit_letter(*bit))?;
    }
    if literal.signed {
        shown.push('s')?;
    }
    Ok(())
}

fn show_expr(shown: &mut String, expr: &Expr) -> Result<(), AllocError> {
    match expr {
        Expr::Pick(pick) => show_pick(shown, pick),
        Expr::Number(_, number) => {
            write!(shown, "{number}")?;
            Ok(())
        }
        Expr::Based(_, literal) => show_literal(shown, literal),
        Expr::Concat(_, parts) => {
            shown.push('{')?;
            for (i, part) in parts.as_slice().iter().enumerate() {
                if i > 0 {
                    shown.push(',')?;
                }
                show_expr(shown, part)?;
            }
            shown.push('}')
        }
    }
}

fn show_target(shown: &mut String, target: &Target) -> Result<(), AllocError> {
    match target {
        Target::Pick(pick) => show_pick(shown, pick),
        Target::Concat(_, parts) => {
            shown.push('{')?;
            for (i, part) in parts.as_slice().iter().enumerate() {
                if i > 0 {
                    shown.push(',')?;
                }
                show_target(shown, part)?;
            }
            shown.push('}')
        }
    }
}

fn show_level(shown: &mut String, level: &Level) -> Result<(), AllocError> {
    let strength = level.strength;
    let value = if level.of_one { 1 } else { 0 };
    write!(shown, "{strength:?}{value}")?;
    Ok(())
}

fn show_drive(shown: &mut String, drive: &Option<DriveStrength>) -> Result<(), AllocError> {
    if let Some(drive) = drive {
        let token = drive.location.token;
        write!(shown, "{token}(")?;
        show_level(shown, &drive.first)?;
        shown.push(',')?;
        show_level(shown, &drive.second)?;
        shown.push_str(") ")?;
    }
    Ok(())
}

fn show_levels(shown: &mut String, levels: &Option<PullLevels>) -> Result<(), AllocError> {
    if let Some(levels) = levels {
        let token = levels.location.token;
        write!(shown, "{token}(")?;
        show_level(shown, &levels.first)?;
        if let Some(second) = &levels.second {
            shown.push(',')?;
            show_level(shown, second)?;
        }
        shown.push_str(") ")?;
    }
    Ok(())
}

fn show_digits(shown: &mut String, digits: &Bytes) -> Result<(), AllocError> {
    for digit in digits.as_slice() {
        write!(shown, "{digit}")?;
    }
    Ok(())
}

fn show_amount(shown: &mut String, amount: &Amount) -> Result<(), AllocError> {
    match amount {
        Amount::Number(n) => write!(shown, "{n}")?,
        Amount::Decimal(digits) => {
            show_digits(shown, &digits.whole)?;
            shown.push('.')?;
            show_digits(shown, &digits.fraction)?;
        }
    }
    Ok(())
}

fn show_values(shown: &mut String, values: &DelayValueList) -> Result<(), AllocError> {
    shown.push('(')?;
    for (i, value) in values.as_slice().iter().enumerate() {
        if i > 0 {
            shown.push(',')?;
        }
        match value {
            DelayValue::One(amount) => show_amount(shown, amount)?,
            DelayValue::Three(a, b, c) => {
                show_amount(shown, a)?;
                shown.push(':')?;
                show_amount(shown, b)?;
                shown.push(':')?;
                show_amount(shown, c)?;
            }
        }
    }
    shown.push_str(") ")
}

fn show_delay(shown: &mut String, delay: &Option<DelaySpec>) -> Result<(), AllocError> {
    if let Some(spec) = delay {
        let token = spec.location.token;
        write!(shown, "{token}#")?;
        match &spec.delay {
            Delay::Amount(amount) => {
                show_amount(shown, amount)?;
                shown.push(' ')?;
            }
            Delay::Values(values) => show_values(shown, values)?,
        }
    }
    Ok(())
}

fn show_net_type(shown: &mut String, net_type: &Option<NetType>) -> Result<(), AllocError> {
    if let Some(net_type) = net_type {
        write!(shown, "{net_type:?} ")?;
    }
    Ok(())
}

fn show_range_if_there(shown: &mut String, range: &Option<RangeBounds>) -> Result<(), AllocError> {
    if let Some(range) = range {
        show_range(shown, range)?;
    }
    Ok(())
}

fn show_vector_range(
    shown: &mut String,
    vector_range: &Option<VectorRange>,
) -> Result<(), AllocError> {
    if let Some(vector_range) = vector_range {
        if let Some(word) = &vector_range.word {
            write!(shown, "{word:?} ")?;
        }
        show_range(shown, &vector_range.range)?;
    }
    Ok(())
}

fn show_valued(shown: &mut String, names: &ValuedNameList) -> Result<(), AllocError> {
    for (i, valued) in names.as_slice().iter().enumerate() {
        if i > 0 {
            shown.push(',')?;
        }
        show_bytes(shown, valued.name.text.as_slice())?;
        shown.push('=')?;
        show_expr(shown, &valued.value)?;
    }
    Ok(())
}

fn show_net_decl(shown: &mut String, decl: &NetDecl) -> Result<(), AllocError> {
    let token = decl.location.token;
    let net_type = decl.net_type;
    write!(shown, "{token}:{net_type:?} ")?;
    show_drive(shown, &decl.drive)?;
    show_vector_range(shown, &decl.vector_range)?;
    show_delay(shown, &decl.delay)?;
    match &decl.declared_names {
        DeclaredNames::Names(names) => show_names(shown, names),
        DeclaredNames::Valued(names) => show_valued(shown, names),
    }
}

fn show_trireg(shown: &mut String, decl: &TriregDecl) -> Result<(), AllocError> {
    let token = decl.location.token;
    write!(shown, "{token}:Trireg ")?;
    if let Some(charge) = &decl.charge {
        write!(shown, "{charge:?} ")?;
    }
    show_vector_range(shown, &decl.vector_range)?;
    show_delay(shown, &decl.delay)?;
    show_names(shown, &decl.names)
}

fn show_assign(shown: &mut String, item: &AssignItem) -> Result<(), AllocError> {
    let token = item.location.token;
    write!(shown, "{token}:Assign ")?;
    show_drive(shown, &item.drive)?;
    show_delay(shown, &item.delay)?;
    for (i, pair) in item.pairs.as_slice().iter().enumerate() {
        if i > 0 {
            shown.push(',')?;
        }
        show_target(shown, &pair.target)?;
        shown.push('=')?;
        show_expr(shown, &pair.value)?;
    }
    Ok(())
}

fn show_name_if_there(shown: &mut String, name: &Option<Name>) -> Result<(), AllocError> {
    if let Some(name) = name {
        show_bytes(shown, name.text.as_slice())?;
    }
    Ok(())
}

fn show_terms(shown: &mut String, terms: &Terms) -> Result<(), AllocError> {
    show_name_if_there(shown, &terms.name)?;
    let token = terms.paren.token;
    write!(shown, "{token}(")?;
    for (i, terminal) in terms.terminals.as_slice().iter().enumerate() {
        if i > 0 {
            shown.push(',')?;
        }
        show_expr(shown, terminal)?;
    }
    shown.push(')')
}

fn show_kind(shown: &mut String, kind: &GateKind) -> Result<(), AllocError> {
    match kind {
        GateKind::Logic(gate, drive, delay) => {
            write!(shown, "{gate:?} ")?;
            show_drive(shown, drive)?;
            show_delay(shown, delay)
        }
        GateKind::Switch(switch, delay) => {
            write!(shown, "{switch:?} ")?;
            show_delay(shown, delay)
        }
        GateKind::Tran(tran) => {
            write!(shown, "{tran:?} ")?;
            Ok(())
        }
        GateKind::Pull(pull, levels) => {
            write!(shown, "{pull:?} ")?;
            show_levels(shown, levels)
        }
    }
}

fn show_gates(shown: &mut String, item: &GateItem) -> Result<(), AllocError> {
    let token = item.location.token;
    write!(shown, "{token}:")?;
    show_kind(shown, &item.kind)?;
    for (i, terms) in item.gates.as_slice().iter().enumerate() {
        if i > 0 {
            shown.push(',')?;
        }
        show_terms(shown, terms)?;
    }
    Ok(())
}

fn show_connection(shown: &mut String, connection: &Connection) -> Result<(), AllocError> {
    let token = connection.location.token;
    write!(shown, "{token}.")?;
    show_bytes(shown, connection.port.text.as_slice())?;
    shown.push('=')?;
    if let Some(value) = &connection.value {
        show_expr(shown, value)?;
    }
    Ok(())
}

fn show_by_order(shown: &mut String, values: &OptionalExprList) -> Result<(), AllocError> {
    for (i, value) in values.as_slice().iter().enumerate() {
        if i > 0 {
            shown.push(',')?;
        }
        if let Some(value) = value {
            show_expr(shown, value)?;
        }
    }
    Ok(())
}

fn show_by_name(shown: &mut String, connections: &ConnectionList) -> Result<(), AllocError> {
    for (i, connection) in connections.as_slice().iter().enumerate() {
        if i > 0 {
            shown.push(',')?;
        }
        show_connection(shown, connection)?;
    }
    Ok(())
}

fn show_inst(shown: &mut String, inst: &Inst) -> Result<(), AllocError> {
    show_name_if_there(shown, &inst.name)?;
    let token = inst.paren.token;
    write!(shown, "{token}(")?;
    match &inst.connections {
        Connections::ByOrder(values) => show_by_order(shown, values)?,
        Connections::ByName(connections) => show_by_name(shown, connections)?,
    }
    shown.push(')')
}

fn show_instance(shown: &mut String, instance: &Instance) -> Result<(), AllocError> {
    let token = instance.name.location.token;
    write!(shown, "{token}:")?;
    show_bytes(shown, instance.name.text.as_slice())?;
    shown.push(' ')?;
    show_drive(shown, &instance.drive)?;
    show_delay(shown, &instance.delay)?;
    for (i, inst) in instance.instances.as_slice().iter().enumerate() {
        if i > 0 {
            shown.push(',')?;
        }
        show_inst(shown, inst)?;
    }
    Ok(())
}

fn show_port_decl(shown: &mut String, decl: &PortDecl) -> Result<(), AllocError> {
    let token = decl.location.token;
    let direction = decl.direction;
    write!(shown, "{token}:{direction:?} ")?;
    show_net_type(shown, &decl.net_type)?;
    show_range_if_there(shown, &decl.range)?;
    show_names(shown, &decl.names)
}

fn show_cell(shown: &mut String, cell: &CellDirective) -> Result<(), AllocError> {
    let token = cell.location.token;
    let word = cell.word;
    write!(shown, "{token}:{word:?}")?;
    Ok(())
}

fn show_block(shown: &mut String, block: &SpecifyBlock) -> Result<(), AllocError> {
    let token = block.location.token;
    let count = block.token_count;
    write!(shown, "{token}:Specify {count}")?;
    Ok(())
}

fn show_default(shown: &mut String, default: &DefaultNettype) -> Result<(), AllocError> {
    let token = default.location.token;
    match default.net_type {
        Some(net_type) => write!(shown, "{token}:Default {net_type:?}")?,
        None => write!(shown, "{token}:Default none")?,
    }
    Ok(())
}

fn show_directive(shown: &mut String, directive: &Directive) -> Result<(), AllocError> {
    match directive {
        Directive::Timescale(timescale) => {
            let token = timescale.location.token;
            let unit = timescale.unit;
            let precision = timescale.precision;
            write!(shown, "{token}:Timescale {unit}/{precision}")?;
        }
        Directive::DefaultNettype(default) => show_default(shown, default)?,
        Directive::Resetall(location) => {
            let token = location.token;
            write!(shown, "{token}:Resetall")?;
        }
        Directive::Cell(cell) => show_cell(shown, cell)?,
    }
    shown.push(';')
}

fn show_item(shown: &mut String, item: &Item) -> Result<(), AllocError> {
    match item {
        Item::Ports(decl) => show_port_decl(shown, decl),
        Item::Nets(decl) => show_net_decl(shown, decl),
        Item::Trireg(decl) => show_trireg(shown, decl),
        Item::Assign(item) => show_assign(shown, item),
        Item::Gates(item) => show_gates(shown, item),
        Item::Instances(instance) => show_instance(shown, instance),
        Item::Cell(cell) => show_cell(shown, cell),
        Item::Specify(block) => show_block(shown, block),
    }
}

fn show_items(shown: &mut String, items: &ItemList) -> Result<(), AllocError> {
    for (i, item) in items.as_slice().iter().enumerate() {
        if i > 0 {
            shown.push(' ')?;
        }
        show_item(shown, item)?;
    }
    Ok(())
}

fn show_ansi_port(shown: &mut String, port: &AnsiPort) -> Result<(), AllocError> {
    let token = port.location.token;
    let direction = port.direction;
    write!(shown, "{token}:{direction:?} ")?;
    show_net_type(shown, &port.net_type)?;
    show_range_if_there(shown, &port.range)?;
    show_bytes(shown, port.name.text.as_slice())
}

fn show_entries(shown: &mut String, entries: &AnsiEntryList) -> Result<(), AllocError> {
    for entry in entries.as_slice() {
        shown.push(',')?;
        match entry {
            AnsiEntry::Port(port) => show_ansi_port(shown, port)?,
            AnsiEntry::Name(name) => show_bytes(shown, name.text.as_slice())?,
        }
    }
    Ok(())
}

fn show_ports(shown: &mut String, ports: &Ports) -> Result<(), AllocError> {
    match ports {
        Ports::Absent => shown.push_str("Absent"),
        Ports::Empty => shown.push_str("Empty"),
        Ports::Names(names) => {
            shown.push('(')?;
            show_names(shown, names)?;
            shown.push(')')
        }
        Ports::Ansi(first, others) => {
            shown.push('(')?;
            show_ansi_port(shown, first)?;
            show_entries(shown, others)?;
            shown.push(')')
        }
    }
}

fn show_module(shown: &mut String, module: &Module) -> Result<(), AllocError> {
    let token = module.location.token;
    let word = module.word;
    write!(shown, "{token}:{word:?} ")?;
    show_bytes(shown, module.name.text.as_slice())?;
    shown.push(' ')?;
    show_ports(shown, &module.ports)?;
    shown.push(';')?;
    show_items(shown, &module.items)
}

fn show_start(shown: &mut String, start: &Option<Lit>) -> Result<(), AllocError> {
    match start {
        Some(value) => {
            shown.push('=')?;
            show_lit(shown, value)
        }
        None => Ok(()),
    }
}

fn show_lit(shown: &mut String, value: &Lit) -> Result<(), AllocError> {
    match value {
        Lit::Number(_, number) => {
            write!(shown, "{number}")?;
            Ok(())
        }
        Lit::Based(_, literal) => show_literal(shown, literal),
    }
}

fn show_star(shown: &mut String, there: bool) -> Result<(), AllocError> {
    if there {
        shown.push('*')?;
    }
    Ok(())
}

fn show_header(shown: &mut String, ports: &UdpPorts) -> Result<(), AllocError> {
    match ports {
        UdpPorts::Names(names) => show_names(shown, names),
        UdpPorts::Declared {
            is_reg,
            output,
            start,
            inputs,
        } => {
            shown.push('>')?;
            show_star(shown, *is_reg)?;
            show_bytes(shown, output.text.as_slice())?;
            show_start(shown, start)?;
            for input in inputs.as_slice() {
                shown.push(',')?;
                show_star(shown, input.has_word)?;
                show_bytes(shown, input.name.text.as_slice())?;
            }
            Ok(())
        }
    }
}

fn show_udp_item(shown: &mut String, item: &UdpItem) -> Result<(), AllocError> {
    match item {
        UdpItem::Output {
            location,
            is_reg,
            name,
            start,
        } => {
            let token = location.token;
            write!(shown, "{token}:o ")?;
            show_star(shown, *is_reg)?;
            show_bytes(shown, name.text.as_slice())?;
            show_start(shown, start)?;
        }
        UdpItem::Input(location, names) => {
            let token = location.token;
            write!(shown, "{token}:i ")?;
            show_names(shown, names)?;
        }
        UdpItem::Reg(location, name) => {
            let token = location.token;
            write!(shown, "{token}:r ")?;
            show_bytes(shown, name.text.as_slice())?;
        }
    }
    shown.push(' ')
}

fn base_letter(base: Base) -> char {
    match base {
        Base::Zero => '0',
        Base::One => '1',
        Base::X => 'x',
        Base::Any => '?',
        Base::Both => 'b',
    }
}

fn show_sym(shown: &mut String, sym: Sym) -> Result<(), AllocError> {
    match sym {
        Sym::Zero => shown.push('0'),
        Sym::One => shown.push('1'),
        Sym::X => shown.push('x'),
        Sym::Any => shown.push('?'),
        Sym::Both => shown.push('b'),
        Sym::Same => shown.push('-'),
        Sym::Rise => shown.push('r'),
        Sym::Fall => shown.push('f'),
        Sym::Pos => shown.push('p'),
        Sym::Neg => shown.push('n'),
        Sym::Change => shown.push('*'),
        Sym::Edge(from, to) => {
            shown.push('(')?;
            shown.push(base_letter(from))?;
            shown.push(base_letter(to))?;
            shown.push(')')
        }
    }
}

fn show_row(shown: &mut String, row: &PlacedRow) -> Result<(), AllocError> {
    let token = row.location.token;
    write!(shown, "{token}[")?;
    for sym in row.row.ins.as_slice() {
        show_sym(shown, *sym)?;
    }
    shown.push('/')?;
    if let Some(state) = row.row.state {
        show_sym(shown, state)?;
        shown.push('/')?;
    }
    show_sym(shown, row.row.out)?;
    shown.push(']')
}

fn show_udp(shown: &mut String, udp: &UdpDecl) -> Result<(), AllocError> {
    let token = udp.location.token;
    write!(shown, "{token}:")?;
    show_bytes(shown, udp.name.text.as_slice())?;
    shown.push_str(" (")?;
    show_header(shown, &udp.ports)?;
    shown.push_str(") ")?;
    for item in udp.items.as_slice() {
        show_udp_item(shown, item)?;
    }
    if let Some(initial) = &udp.initial {
        let token = initial.location.token;
        write!(shown, "{token}:")?;
        show_bytes(shown, initial.name.text.as_slice())?;
        shown.push('=')?;
        show_lit(shown, &initial.value)?;
        shown.push(' ')?;
    }
    shown.push('|')?;
    for (i, row) in udp.rows.as_slice().iter().enumerate() {
        if i > 0 {
            shown.push(' ')?;
        }
        show_row(shown, row)?;
    }
    shown.push(';')
}

fn show_space(shown: &mut String) -> Result<(), AllocError> {
    if !shown.is_empty() {
        shown.push(' ')?;
    }
    Ok(())
}

fn show_file(shown: &mut String, file: &File) -> Result<(), AllocError> {
    for module in file.modules.as_slice() {
        show_space(shown)?;
        show_module(shown, module)?;
    }
    for udp in file.udps.as_slice() {
        show_space(shown)?;
        show_udp(shown, udp)?;
    }
    for directive in file.directives.as_slice() {
        show_space(shown)?;
        show_directive(shown, directive)?;
    }
    Ok(())
}

pub(crate) fn show_answer(
    shown: &mut String,
    answer: Result<File, ParseFault>,
) -> Result<(), AllocError> {
    match answer {
        Ok(file) => show_file(shown, &file),
        Err(ParseFault::Unsupported(token)) => {
            write!(shown, "unsupported {token}")?;
            Ok(())
        }
        Err(ParseFault::Syntax(token)) => {
            write!(shown, "syntax {token}")?;
            Ok(())
        }
        Err(ParseFault::Memory) => shown.push_str("memory"),
    }
}
