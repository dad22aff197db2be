//! The rules on names, each judged from summaries.
ghost use Rattle.std.specs.Prelude.{◌≡◌, ℕ};
ghost use Rattle.module_scope.specs.Rules.{is_part, is_within, same_range};
ghost use Rattle.module_scope.specs.Summaries.{form_completes, form_repeats, form_differs, summary_breaks_ports, summary_makes_implicit, summary_has_implicit, summary_names_net, summary_breaks_repeated, summary_breaks_undeclared, summary_breaks_implicit, summary_breaks_selects, summary_breaks};

use crate::roles::{Count, Role};
use crate::summaries::{DeclarationForm, Summary};
use v_tree::{RangeBounds, Select};

/// The rules on the names of a module.
#[derive(Clone, Copy, Debug, PartialEq, Eq)]
pub enum NameRule {
    /// Header names and directions.
    Ports,
    /// Names that are declared twice.
    Repeated,
    /// Right sides and selects of names of no net.
    Undeclared,
    /// Selects outside ranges.
    Selects,
    /// Ranges of a direction and of its net.
    Ranges,
    /// Names of no net where no implicit nets are made.
    Implicit,
}

/// Whether a mention breaks the rule on header names and directions.
fn breaks_ports(all: &Summary, before: &Summary, role: Role) -> bool
    ensures { result ≡ summary_breaks_ports all.now before.now role }
{
    match role {
        Role::Header => {
            if all.headers.is_several() {
                before.headers.is_one()
            } else {
                !all.directions.is_one()
            }
        }
        Role::Port(_) => all.headers.is_zero(),
        _ => false,
    }
}

/// Whether a mention makes an implicit net.
fn makes_implicit(makes: bool, all: &Summary, before: &Summary, role: Role) -> bool
    ensures { result ≡ summary_makes_implicit makes all.now before.now role }
{
    makes && !all.is_declared && role.makes_net() && !before.makes_net
}

/// Whether an implicit net was made before.
fn has_implicit(makes: bool, all: &Summary, before: &Summary) -> bool
    ensures { result ≡ summary_has_implicit makes all.now before.now }
{
    makes && !all.is_declared && before.makes_net
}

/// Whether a name is that of a net.
fn names_net(makes: bool, all: &Summary, before: &Summary) -> bool
    ensures { result ≡ summary_names_net makes all.now before.now }
{
    all.is_declared || has_implicit(makes, all, before)
}

/// Whether a declaration of this form and a role are a direction without a net type and a declaration
/// of the net.
fn completes(first: DeclarationForm, role: Role) -> bool
    ensures { result ≡ form_completes first role }
{
    match (first, role) {
        (DeclarationForm::Direction, _) => role.is_net(),
        (DeclarationForm::Net, Role::Port(port)) => port.net_type.is_none(),
        _ => false,
    }
}

/// Whether a declaration, behind others of which the first has this form, declares its name once more.
fn repeats(count: Count, first: DeclarationForm, role: Role) -> bool
    ensures { result ≡ form_repeats count first role }
{
    match count {
        Count::Zero => false,
        Count::One => !completes(first, role),
        Count::Several => true,
    }
}

/// Whether a mention breaks the rule on names that are declared twice.
fn breaks_repeated(makes: bool, all: &Summary, before: &Summary, role: Role) -> bool
    ensures { result ≡ summary_breaks_repeated makes all.now before.now role }
{
    if role.is_declaration() {
        has_implicit(makes, all, before)
            || repeats(before.declarations, before.declaration_form, role)
    } else {
        makes_implicit(makes, all, before, role) && !before.declarations.is_zero()
    }
}

/// Whether a mention breaks the rule on right sides and selects of names of no net.
fn breaks_undeclared(makes: bool, all: &Summary, before: &Summary, role: Role) -> bool
    ensures { result ≡ summary_breaks_undeclared makes all.now before.now role }
{
    match role {
        Role::Use(side, select) => {
            (side.is_value() || select.is_some()) && !names_net(makes, all, before)
        }
        _ => false,
    }
}

/// Whether a mention breaks the rule on names of no net where no implicit nets are made.
fn breaks_implicit(makes: bool, all: &Summary, role: Role) -> bool
    ensures { result ≡ summary_breaks_implicit makes all.now role }
{
    match role {
        Role::Use(side, _) => !makes && side.takes_implicit() && !all.is_declared,
        _ => false,
    }
}

/// Whether bounds lie inside a range and follow its direction.
fn is_part(left: u32, right: u32, range: RangeBounds) -> bool
    ensures { result ≡ is_part left right range }
{
    (range.right <= right && right <= left && left <= range.left)
        || (range.left <= left && left <= right && right <= range.right)
}

/// Whether a select lies inside a range and follows its direction.
fn is_within(select: Select, range: Option<RangeBounds>) -> bool
    ensures { result ≡ is_within select range }
{
    match range {
        Some(range) => is_part(select.left, select.right.unwrap_or(select.left), range),
        None => false,
    }
}

/// Whether a mention breaks the rule on selects.
fn breaks_selects(makes: bool, all: &Summary, before: &Summary, role: Role) -> bool
    ensures { result ≡ summary_breaks_selects makes all.now before.now role }
{
    match role {
        Role::Use(_, Some(select)) => {
            names_net(makes, all, before) && !is_within(select, all.range)
        }
        _ => false,
    }
}

/// Whether both have the same range, or none.
fn same_range(a: Option<RangeBounds>, b: Option<RangeBounds>) -> bool
    ensures { result ≡ same_range a b }
{
    match (a, b) {
        (None, None) => true,
        (Some(a), Some(b)) => a.left == b.left && a.right == b.right,
        _ => false,
    }
}

/// Whether a declaration of this form and range, and a role, are a direction and a declaration of the
/// net with different ranges.
fn differs(first: DeclarationForm, range: Option<RangeBounds>, role: Role) -> bool
    ensures { result ≡ form_differs first range role }
{
    match (first, role) {
        (DeclarationForm::Net, Role::Port(port)) => !same_range(range, port.range),
        (DeclarationForm::Direction | DeclarationForm::TypedDirection, Role::Net(net)) => {
            !same_range(range, net.range)
        }
        _ => false,
    }
}

/// Whether a mention breaks the rule: by all the roles of its name, by those before it, and by its
/// own role. `makes` says whether implicit nets are made.
pub fn breaks(rule: NameRule, makes: bool, all: &Summary, before: &Summary, role: Role) -> bool
    ensures { result ≡ summary_breaks rule makes all.now before.now role }
{
    match rule {
        NameRule::Ports => breaks_ports(all, before, role),
        NameRule::Repeated => breaks_repeated(makes, all, before, role),
        NameRule::Undeclared => breaks_undeclared(makes, all, before, role),
        NameRule::Selects => breaks_selects(makes, all, before, role),
        NameRule::Ranges => differs(before.net_form, before.range, role),
        NameRule::Implicit => breaks_implicit(makes, all, role),
    }
}
