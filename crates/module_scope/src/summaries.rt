//! What the rules ask of the roles of a name, kept in constant room.
ghost use Rattle.std.specs.Prelude.{◌≡◌, ◌<◌, [], IfOk};
ghost use Rattle.std.specs.List.{All};
ghost use Rattle.module_scope.specs.Summaries.{summary_of, form_of, count_next, form_next, range_next, with_role, summaries_of};

use crate::mentions::Occurrence;
use crate::roles::{Count, NetKind, Role};
use std::alloc::{AllocError, Global};
use v_tree::{Direction, NetType, RangeBounds};

/// What a declaration is: none, a direction without a net type or with one, a net, or an instance.
#[derive(Clone, Copy)]
pub enum DeclarationForm {
    Absent,
    Direction,
    TypedDirection,
    Net,
    Instance,
}

/// What the rules ask of the roles of a name, and what its net is: how many of some kinds there are,
/// what the first declaration is and the first by which the name is a net's, and what its first
/// declarations give.
#[derive(Clone, Copy)]
pub struct Summary {
    pub headers: Count,
    pub directions: Count,
    pub declarations: Count,
    pub declaration_form: DeclarationForm,
    pub net_form: DeclarationForm,
    pub is_declared: bool,
    pub makes_net: bool,
    pub direction: Option<Direction>,
    pub port_type: Option<NetType>,
    pub net_kind: Option<NetKind>,
    pub range: Option<RangeBounds>,
    pub delay: Option<usize>,
}

/// What a declaration is.
fn form_of(role: Role) -> DeclarationForm
    ensures { result ≡ form_of role }
{
    match role {
        Role::Port(port) => match port.net_type {
            None => DeclarationForm::Direction,
            Some(_) => DeclarationForm::TypedDirection,
        },
        Role::Net(_) => DeclarationForm::Net,
        _ => DeclarationForm::Instance,
    }
}

/// A count, with one more where the role is of the kind.
fn count_next(count: Count, is_kind: bool) -> Count
    ensures { result ≡ count_next count is_kind }
{
    if is_kind { count.more() } else { count }
}

/// The first form, where there was one, else that of this role where it is of the kind.
fn form_next(form: DeclarationForm, is_kind: bool, role: Role) -> DeclarationForm
    ensures { result ≡ form_next form is_kind role }
{
    match form {
        DeclarationForm::Absent => {
            if is_kind {
                form_of(role)
            } else {
                DeclarationForm::Absent
            }
        }
        _ => form,
    }
}

/// The range of the first declaration, where there was one, else that of this role.
fn range_next(is_declared: bool, range: Option<RangeBounds>, role: Role) -> Option<RangeBounds>
    ensures { result ≡ range_next is_declared range role }
{
    if is_declared { range } else { role.range() }
}

impl Summary {
    /// The summary of no roles.
    pub fn new() -> Summary
        ensures { result ≡ summary_of [] }
    {
        Summary {
            headers: Count::Zero,
            directions: Count::Zero,
            declarations: Count::Zero,
            declaration_form: DeclarationForm::Absent,
            net_form: DeclarationForm::Absent,
            is_declared: false,
            makes_net: false,
            direction: None,
            port_type: None,
            net_kind: None,
            range: None,
            delay: None,
        }
    }

    /// The summary with one more role.
    pub fn with_role(&self, role: Role) -> Summary
        ensures { result ≡ with_role self.now role }
    {
        Summary {
            headers: count_next(self.headers, role.is_header()),
            directions: count_next(self.directions, role.is_port()),
            declarations: count_next(self.declarations, role.is_declaration()),
            declaration_form: form_next(self.declaration_form, role.is_declaration(), role),
            net_form: form_next(self.net_form, role.declares_net(), role),
            is_declared: self.is_declared || role.declares_net(),
            makes_net: self.makes_net || role.makes_net(),
            direction: self.direction.or(role.direction()),
            port_type: self.port_type.or(role.port_type()),
            net_kind: self.net_kind.or(role.net_kind()),
            range: range_next(self.is_declared, self.range, role),
            delay: self.delay.or(role.delay()),
        }
    }
}

/// A summary of no roles for each of so many names.
pub fn no_summaries(alloc: Global, count: usize) -> Result<Vec<Summary>, AllocError>
    ensures { IfOk result (λ summaries. summaries.items ≡ summaries_of count []) }
{
    let mut summaries = Vec::new(alloc);
    for _ in 0..count {
        summaries.push(Summary::new())?;
    }
    Ok(summaries)
}

/// The summary of the roles of each of so many names.
pub fn summaries_of(
    alloc: Global,
    count: usize,
    occurrences: &[Occurrence],
) -> Result<Vec<Summary>, AllocError>
    requires { All (λ o. o.name < count) occurrences.now }
    ensures { IfOk result (λ summaries. summaries.items ≡ summaries_of count occurrences.now) }
{
    let mut summaries = no_summaries(alloc, count)?;
    for occurrence in occurrences {
        summaries[occurrence.name] = summaries[occurrence.name].with_role(occurrence.role);
    }
    Ok(summaries)
}
