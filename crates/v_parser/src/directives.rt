//! Directives.

ghost use Rattle.std.specs.Prelude.{◌≡◌};
ghost use Rattle.v_parser.specs.Input as input;
ghost use Rattle.v_parser.specs.Input.{Reads};
ghost use Rattle.v_parser.specs.Directives as spec;

use crate::cursor::{Cursor, is};
use crate::fault::ParseFault;
use crate::words::{Meaning, meaning_of};
use v_tree::{CellDirective, CellWord, DefaultNettype, Directive, ImplicitNetType, Timescale};

/// The number that a scale begins with.
#[derive(Clone, Copy)]
pub enum ScaleFactor {
    One,
    Ten,
    Hundred,
}

/// The unit of a scale.
#[derive(Clone, Copy)]
pub enum TimeUnit {
    Second,
    Millisecond,
    Microsecond,
    Nanosecond,
    Picosecond,
    Femtosecond,
}

impl Meaning for CellWord {
    ghost use Rattle.v_parser.specs.Directives.{cell_of};

    ghost stands_for = { cell_of };

    #[tactic(auto, unfolding(crate::specs::Directives::cell_of, crate::specs::Directives::cell_table))]
    fn of(word: &[u8]) -> Option<CellWord> {
        if is(word, b"`celldefine") {
            Some(CellWord::Celldefine)
        } else if is(word, b"`endcelldefine") {
            Some(CellWord::Endcelldefine)
        } else {
            None
        }
    }
}

impl Meaning for TimeUnit {
    ghost use Rattle.v_parser.specs.Directives.{unit_of};

    ghost stands_for = { unit_of };

    #[tactic(auto, unfolding(crate::specs::Directives::unit_of, crate::specs::Directives::unit_table))]
    fn of(word: &[u8]) -> Option<TimeUnit> {
        if is(word, b"s") {
            Some(TimeUnit::Second)
        } else if is(word, b"ms") {
            Some(TimeUnit::Millisecond)
        } else if is(word, b"us") {
            Some(TimeUnit::Microsecond)
        } else if is(word, b"ns") {
            Some(TimeUnit::Nanosecond)
        } else if is(word, b"ps") {
            Some(TimeUnit::Picosecond)
        } else if is(word, b"fs") {
            Some(TimeUnit::Femtosecond)
        } else {
            None
        }
    }
}

impl Meaning for ImplicitNetType {
    ghost use Rattle.v_parser.specs.Directives.{implicit_of};

    ghost stands_for = { implicit_of };

    #[tactic(auto, unfolding(crate::specs::Directives::implicit_of, crate::specs::Directives::implicit_table))]
    fn of(word: &[u8]) -> Option<ImplicitNetType> {
        if is(word, b"wire") {
            Some(ImplicitNetType::Wire)
        } else if is(word, b"tri") {
            Some(ImplicitNetType::Tri)
        } else if is(word, b"tri0") {
            Some(ImplicitNetType::Tri0)
        } else if is(word, b"tri1") {
            Some(ImplicitNetType::Tri1)
        } else if is(word, b"wand") {
            Some(ImplicitNetType::Wand)
        } else if is(word, b"triand") {
            Some(ImplicitNetType::Triand)
        } else if is(word, b"wor") {
            Some(ImplicitNetType::Wor)
        } else if is(word, b"trior") {
            Some(ImplicitNetType::Trior)
        } else if is(word, b"trireg") {
            Some(ImplicitNetType::Trireg)
        } else {
            None
        }
    }
}

/// `` `celldefine `` or `` `endcelldefine ``
#[tactic(auto, unfolding(crate::specs::Directives::cell))]
pub fn cell(cursor: &mut Cursor<'_>) -> Result<CellDirective, ParseFault>
    ensures { Reads (spec.cell cursor.old) result cursor.new }
{
    match meaning_of::<CellWord>(cursor.seen_directive()) {
        Some(word) => {
            let location = cursor.location();
            cursor.advance();
            Ok(CellDirective { location, word })
        }
        None => Err(cursor.refuse()),
    }
}

/// What a number stands for, where a scale may begin with it.
#[tactic(auto, unfolding(crate::specs::Directives::factor_of))]
fn factor_of(value: u32) -> Option<ScaleFactor>
    ensures { result ≡ spec.factor_of value }
{
    if value == 1 {
        Some(ScaleFactor::One)
    } else if value == 10 {
        Some(ScaleFactor::Ten)
    } else if value == 100 {
        Some(ScaleFactor::Hundred)
    } else {
        None
    }
}

/// What the next token stands for, where it is a number that a scale may begin with.
fn factor_seen(cursor: &Cursor<'_>) -> Option<ScaleFactor>
    ensures { result ≡ spec.factor_in (input.front cursor.now) }
{
    match cursor.seen_number() {
        Some(value) => factor_of(value),
        None => None,
    }
}

/// 1, 10 or 100
#[tactic(auto, unfolding(crate::specs::Directives::factor))]
fn factor(cursor: &mut Cursor<'_>) -> Result<ScaleFactor, ParseFault>
    ensures { Reads (spec.factor cursor.old) result cursor.new }
{
    match factor_seen(cursor) {
        Some(factor) => {
            cursor.advance();
            Ok(factor)
        }
        None => Err(cursor.refuse()),
    }
}

/// The name of a unit.
#[tactic(auto, unfolding(crate::specs::Directives::unit))]
fn unit(cursor: &mut Cursor<'_>) -> Result<TimeUnit, ParseFault>
    ensures { Reads (spec.unit cursor.old) result cursor.new }
{
    match meaning_of::<TimeUnit>(cursor.seen_name()) {
        Some(unit) => {
            cursor.advance();
            Ok(unit)
        }
        None => Err(cursor.refuse()),
    }
}

/// One of three powers of ten, by a factor.
fn by_factor(factor: ScaleFactor, one: i8, ten: i8, hundred: i8) -> i8
    ensures { result ≡ spec.by_factor factor one ten hundred }
{
    match factor {
        ScaleFactor::One => one,
        ScaleFactor::Ten => ten,
        ScaleFactor::Hundred => hundred,
    }
}

/// The power of ten of a second that a factor and a unit make.
fn power_of(factor: ScaleFactor, unit: TimeUnit) -> i8
    ensures { result ≡ spec.power_of factor unit }
{
    match unit {
        TimeUnit::Second => by_factor(factor, 0, 1, 2),
        TimeUnit::Millisecond => by_factor(factor, -3, -2, -1),
        TimeUnit::Microsecond => by_factor(factor, -6, -5, -4),
        TimeUnit::Nanosecond => by_factor(factor, -9, -8, -7),
        TimeUnit::Picosecond => by_factor(factor, -12, -11, -10),
        TimeUnit::Femtosecond => by_factor(factor, -15, -14, -13),
    }
}

/// A number and a unit.
#[tactic(auto, unfolding(crate::specs::Directives::scale))]
fn scale(cursor: &mut Cursor<'_>) -> Result<i8, ParseFault>
    ensures { Reads (spec.scale cursor.old) result cursor.new }
{
    let factor = factor(cursor)?;
    let unit = unit(cursor)?;
    Ok(power_of(factor, unit))
}

/// `` `timescale unit / precision ``
#[tactic(auto, unfolding(crate::specs::Directives::timescale))]
fn timescale(cursor: &mut Cursor<'_>) -> Result<Timescale, ParseFault>
    ensures { Reads (spec.timescale cursor.old) result cursor.new }
{
    let location = cursor.directive(b"`timescale")?;
    let unit = scale(cursor)?;
    cursor.skip(b'/')?;
    let precision = scale(cursor)?;
    Ok(Timescale {
        location,
        unit,
        precision,
    })
}

/// What a name stands for, where it is `none`.
#[tactic(auto, unfolding(crate::specs::Directives::none_of))]
fn none_of(name: &[u8]) -> Option<Option<ImplicitNetType>>
    ensures { result ≡ spec.none_of name.now }
{
    if is(name, b"none") { Some(None) } else { None }
}

/// What the next token stands for, where it is a type of implicit nets or `none`.
fn default_seen(cursor: &Cursor<'_>) -> Option<Option<ImplicitNetType>>
    ensures { result ≡ spec.default_in (input.front cursor.now) }
{
    if let Some(name) = cursor.seen_name() {
        return none_of(name);
    }
    match meaning_of::<ImplicitNetType>(cursor.seen_word()) {
        Some(net_type) => Some(Some(net_type)),
        None => None,
    }
}

/// A type or `none`.
#[tactic(auto, unfolding(crate::specs::Directives::default))]
fn default(cursor: &mut Cursor<'_>) -> Result<Option<ImplicitNetType>, ParseFault>
    ensures { Reads (spec.default cursor.old) result cursor.new }
{
    match default_seen(cursor) {
        Some(net_type) => {
            cursor.advance();
            Ok(net_type)
        }
        None => Err(cursor.refuse()),
    }
}

/// `` `default_nettype `` and a type or `none`.
#[tactic(auto, unfolding(crate::specs::Directives::default_nettype))]
fn default_nettype(cursor: &mut Cursor<'_>) -> Result<DefaultNettype, ParseFault>
    ensures { Reads (spec.default_nettype cursor.old) result cursor.new }
{
    let location = cursor.directive(b"`default_nettype")?;
    let net_type = default(cursor)?;
    Ok(DefaultNettype { location, net_type })
}

/// `` `resetall ``, or a cell.
#[tactic(auto, unfolding(crate::specs::Directives::resets, crate::specs::Input::choice))]
fn resets(cursor: &mut Cursor<'_>) -> Result<Directive, ParseFault>
    ensures { Reads (spec.resets cursor.old) result cursor.new }
{
    if cursor.sees_directive(b"`resetall") {
        Ok(Directive::Resetall(cursor.directive(b"`resetall")?))
    } else {
        Ok(Directive::Cell(cell(cursor)?))
    }
}

/// The type of implicit nets, or what `resets` reads.
#[tactic(auto, unfolding(crate::specs::Directives::defaults, crate::specs::Input::choice))]
fn defaults(cursor: &mut Cursor<'_>) -> Result<Directive, ParseFault>
    ensures { Reads (spec.defaults cursor.old) result cursor.new }
{
    if cursor.sees_directive(b"`default_nettype") {
        Ok(Directive::DefaultNettype(default_nettype(cursor)?))
    } else {
        resets(cursor)
    }
}

/// A directive.
#[tactic(auto, unfolding(crate::specs::Directives::directive, crate::specs::Input::choice))]
pub fn directive(cursor: &mut Cursor<'_>) -> Result<Directive, ParseFault>
    ensures { Reads (spec.directive cursor.old) result cursor.new }
{
    if cursor.sees_directive(b"`timescale") {
        Ok(Directive::Timescale(timescale(cursor)?))
    } else {
        defaults(cursor)
    }
}
