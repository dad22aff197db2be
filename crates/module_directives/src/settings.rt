ghost use Rattle.std.specs.Prelude.{◌≡◌, ◌≤◌, length, map, IfOk};
ghost use Rattle.module_directives.specs.InForce.{settings_after, default_settings, is_before, settings_at};
ghost use Rattle.module_directives.specs.Walks.{settings_from, IsBehind};
ghost use Rattle.v_tree.specs.Tree.{directive_location};

use crate::precisions::tick_of;
use sqlite_items::Items;
use std::alloc::{AllocError, Global};
use v_tree::{Directive, ImplicitNetType, Location, Module};

/// What is in force at a module: the unit and the precision of its delays, as powers of ten of a second
/// from -15 to 2, and the type of its implicit nets, None after `` `default_nettype none `` (IEEE
/// 1364-2005, 19.2 and 19.8).
#[derive(Clone, Copy, Debug, PartialEq, Eq)]
pub struct Settings {
    pub unit: i8,
    pub precision: i8,
    pub implicit_type: Option<ImplicitNetType>,
}

/// Settings, one for each module.
pub type SettingsList = Items<Settings>;

/// How far the directives were walked, in their order: the token up to which they were, how many of
/// them there were, and what is in force behind those.
#[derive(Clone, Copy, Debug, PartialEq, Eq)]
struct Walk {
    token: u32,
    count: usize,
    settings: Settings,
}

/// What is in force before any directive.
fn default_settings(tick: i8) -> Settings
    ensures { result ≡ default_settings tick }
{
    Settings {
        unit: tick,
        precision: tick,
        implicit_type: Some(ImplicitNetType::Wire),
    }
}

/// What is in force behind a directive.
fn settings_after(tick: i8, settings: Settings, directive: &Directive) -> Settings
    ensures { result ≡ settings_after tick settings directive.now }
{
    match directive {
        Directive::Timescale(timescale) => Settings {
            unit: timescale.unit,
            precision: timescale.precision,
            implicit_type: settings.implicit_type,
        },
        Directive::DefaultNettype(default) => Settings {
            unit: settings.unit,
            precision: settings.precision,
            implicit_type: default.net_type,
        },
        Directive::Resetall(_) => default_settings(tick),
        Directive::Cell(_) => settings,
    }
}

/// The location of a directive.
fn location_of(directive: &Directive) -> Location
    ensures { result ≡ directive_location directive.now }
{
    match directive {
        Directive::Timescale(timescale) => timescale.location,
        Directive::DefaultNettype(default) => default.location,
        Directive::Resetall(location) => *location,
        Directive::Cell(cell) => cell.location,
    }
}

/// Whether a directive stands before a token.
fn is_before(token: u32, directive: &Directive) -> bool
    ensures { result ≡ is_before token directive.now }
{
    location_of(directive).token < token
}

/// A walk from none of the directives.
fn first_walk(tick: i8, directives: &[Directive]) -> Walk
    ensures behind { IsBehind tick directives.now result }
    ensures token { result.token ≡ 0 }
{
    Walk {
        token: 0,
        count: 0,
        settings: default_settings(tick),
    }
}

/// The walk up to a token that isn't before that of an earlier walk.
fn walk_on(tick: i8, directives: &[Directive], token: u32, start: Walk) -> Walk
    requires behind { IsBehind tick directives.now start }
    requires on { start.token ≤ token }
    ensures behind { IsBehind tick directives.now result }
    ensures token { result.token ≡ token }
    ensures settings { result.settings
        ≡ settings_from tick token (default_settings tick) directives.now }
{
    let mut settings = start.settings;
    for count in start.count..directives.len() {
        let directive = &directives[count];
        if !is_before(token, directive) {
            return Walk {
                token,
                count,
                settings,
            };
        }
        settings = settings_after(tick, settings, directive);
    }
    Walk {
        token,
        count: directives.len(),
        settings,
    }
}

/// The walk up to a token: on from an earlier walk, or from the first directive where that went beyond.
fn walk_to(tick: i8, directives: &[Directive], token: u32, start: Walk) -> Walk
    requires { IsBehind tick directives.now start }
    ensures behind { IsBehind tick directives.now result }
    ensures settings { result.settings
        ≡ settings_from tick token (default_settings tick) directives.now }
{
    if start.token <= token {
        walk_on(tick, directives, token, start)
    } else {
        walk_on(tick, directives, token, first_walk(tick, directives))
    }
}

/// For each module what is in force at it, by the directives of its file, which stand in text order.
pub fn settings_of(
    alloc: Global,
    modules: &[Module],
    directives: &[Directive],
) -> Result<SettingsList, AllocError>
    ensures { IfOk result (λ list.
        list ≡ map (λ m. settings_at directives.now m.location) modules.now) }
{
    let tick = tick_of(directives);
    let mut walk = first_walk(tick, directives);
    let mut list = Items::new(alloc);
    for module in modules {
        walk = walk_to(tick, directives, module.location.token, walk);
        list.push(walk.settings)?;
    }
    Ok(list)
}
