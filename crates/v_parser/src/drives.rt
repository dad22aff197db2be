//! Drives, charges and delays.

ghost use Rattle.std.specs.Prelude.{◌≡◌};
ghost use Rattle.v_parser.specs.Input as input;
ghost use Rattle.v_parser.specs.Input.{Reads};
ghost use Rattle.v_parser.specs.Drives as spec;
ghost use Rattle.v_parser.specs.Expressions.{sees_mark};

use crate::cursor::Cursor;
use crate::fault::ParseFault;
use crate::lists::{Part, comma_list};
use crate::words::{sees, word_for};
use v_tree::{Amount, Charge, Delay, DelaySpec, DelayValue, DriveStrength, Level, PullLevels};

/// A level, without its location.
#[tactic(auto, unfolding(crate::specs::Drives::level))]
fn level(cursor: &mut Cursor<'_>) -> Result<Level, ParseFault>
    ensures { Reads (spec.level cursor.old) result cursor.new }
{
    let (level, _) = word_for::<Level>(cursor)?;
    Ok(level)
}

/// `( level , level )`
#[tactic(auto, unfolding(crate::specs::Drives::drive))]
fn drive(cursor: &mut Cursor<'_>) -> Result<DriveStrength, ParseFault>
    ensures { Reads (spec.drive cursor.old) result cursor.new }
{
    let location = cursor.mark(b'(')?;
    let first = level(cursor)?;
    cursor.skip(b',')?;
    let second = level(cursor)?;
    cursor.skip(b')')?;
    Ok(DriveStrength {
        location,
        first,
        second,
    })
}

/// Whether a `(` and a level come next.
pub fn sees_drive(cursor: &Cursor<'_>) -> bool
    ensures { result ≡ spec.sees_drive (input.front cursor.now)
        (input.front (input.next cursor.now)) }
{
    cursor.sees_mark(b'(') && sees::<Level>(&cursor.behind())
}

/// A drive, where a `(` comes next.
#[tactic(auto, unfolding(crate::specs::Input::optional))]
pub fn drive_in_parentheses(cursor: &mut Cursor<'_>) -> Result<Option<DriveStrength>, ParseFault>
    ensures { Reads (input.optional (sees_mark 40) spec.drive cursor.old) result cursor.new }
{
    if cursor.sees_mark(b'(') {
        Ok(Some(drive(cursor)?))
    } else {
        Ok(None)
    }
}

/// A drive, where a `(` and a level come next.
#[tactic(auto, unfolding(crate::specs::Input::optional))]
pub fn drive_if_there(cursor: &mut Cursor<'_>) -> Result<Option<DriveStrength>, ParseFault>
    ensures { Reads (input.optional spec.sees_drive spec.drive cursor.old) result cursor.new }
{
    if sees_drive(cursor) {
        Ok(Some(drive(cursor)?))
    } else {
        Ok(None)
    }
}

/// `, level`
#[tactic(auto, unfolding(crate::specs::Drives::second_level))]
fn second_level(cursor: &mut Cursor<'_>) -> Result<Level, ParseFault>
    ensures { Reads (spec.second_level cursor.old) result cursor.new }
{
    cursor.skip(b',')?;
    level(cursor)
}

/// A second level, where a comma comes next.
#[tactic(auto, unfolding(crate::specs::Input::optional))]
fn second_level_if_there(cursor: &mut Cursor<'_>) -> Result<Option<Level>, ParseFault>
    ensures { Reads (input.optional (sees_mark 44) spec.second_level cursor.old) result cursor.new }
{
    if cursor.sees_mark(b',') {
        Ok(Some(second_level(cursor)?))
    } else {
        Ok(None)
    }
}

/// `( level )` or `( level , level )`
#[tactic(auto, unfolding(crate::specs::Drives::pull_levels))]
fn pull_levels(cursor: &mut Cursor<'_>) -> Result<PullLevels, ParseFault>
    ensures { Reads (spec.pull_levels cursor.old) result cursor.new }
{
    let location = cursor.mark(b'(')?;
    let first = level(cursor)?;
    let second = second_level_if_there(cursor)?;
    cursor.skip(b')')?;
    Ok(PullLevels {
        location,
        first,
        second,
    })
}

/// The levels of a pull gate, where a `(` and a level come next.
#[tactic(auto, unfolding(crate::specs::Input::optional))]
pub fn pull_levels_if_there(cursor: &mut Cursor<'_>) -> Result<Option<PullLevels>, ParseFault>
    ensures { Reads (input.optional spec.sees_drive spec.pull_levels cursor.old) result cursor.new }
{
    if sees_drive(cursor) {
        Ok(Some(pull_levels(cursor)?))
    } else {
        Ok(None)
    }
}

/// A word for a charge, without its location.
#[tactic(auto, unfolding(crate::specs::Drives::charge_word))]
fn charge_word(cursor: &mut Cursor<'_>) -> Result<Charge, ParseFault>
    ensures { Reads (spec.charge_word cursor.old) result cursor.new }
{
    let (charge, _) = word_for::<Charge>(cursor)?;
    Ok(charge)
}

/// `( charge )`
#[tactic(auto, unfolding(crate::specs::Drives::charge))]
fn charge(cursor: &mut Cursor<'_>) -> Result<Charge, ParseFault>
    ensures { Reads (spec.charge cursor.old) result cursor.new }
{
    cursor.skip(b'(')?;
    let charge = charge_word(cursor)?;
    cursor.skip(b')')?;
    Ok(charge)
}

/// A charge, where a `(` comes next.
#[tactic(auto, unfolding(crate::specs::Input::optional))]
pub fn charge_if_there(cursor: &mut Cursor<'_>) -> Result<Option<Charge>, ParseFault>
    ensures { Reads (input.optional (sees_mark 40) spec.charge cursor.old) result cursor.new }
{
    if cursor.sees_mark(b'(') {
        Ok(Some(charge(cursor)?))
    } else {
        Ok(None)
    }
}

/// `: amount : amount`
#[tactic(auto, unfolding(crate::specs::Drives::other_values))]
fn other_values(cursor: &mut Cursor<'_>) -> Result<(Amount, Amount), ParseFault>
    ensures { Reads (spec.other_values cursor.old) result cursor.new }
{
    cursor.skip(b':')?;
    let typical = cursor.amount()?;
    cursor.skip(b':')?;
    let greatest = cursor.amount()?;
    Ok((typical, greatest))
}

/// Two more values, where a `:` comes next.
#[tactic(auto, unfolding(crate::specs::Input::optional))]
fn other_values_if_there(cursor: &mut Cursor<'_>) -> Result<Option<(Amount, Amount)>, ParseFault>
    ensures { Reads (input.optional (sees_mark 58) spec.other_values cursor.old) result cursor.new }
{
    if cursor.sees_mark(b':') {
        Ok(Some(other_values(cursor)?))
    } else {
        Ok(None)
    }
}

/// An amount, or three with `:` between.
#[tactic(auto, unfolding(crate::specs::Drives::delay_value))]
fn delay_value(cursor: &mut Cursor<'_>) -> Result<DelayValue, ParseFault>
    ensures { Reads (spec.delay_value cursor.old) result cursor.new }
{
    let value = cursor.amount()?;
    match other_values_if_there(cursor)? {
        Some((typical, greatest)) => Ok(DelayValue::Three(value, typical, greatest)),
        None => Ok(DelayValue::One(value)),
    }
}

impl Part for DelayValue {
    ghost use Rattle.v_parser.specs.Drives.{delay_value};

    ghost reader = { delay_value };

    fn read(cursor: &mut Cursor<'_>) -> Result<DelayValue, ParseFault> {
        delay_value(cursor)
    }
}

/// `( value , .. )`
#[tactic(auto, unfolding(crate::specs::Drives::delay_values))]
fn delay_values(cursor: &mut Cursor<'_>) -> Result<Delay, ParseFault>
    ensures { Reads (spec.delay_values cursor.old) result cursor.new }
{
    cursor.skip(b'(')?;
    let values = comma_list(cursor)?;
    cursor.skip(b')')?;
    Ok(Delay::Values(values))
}

/// An amount, or values in parentheses.
#[tactic(auto, unfolding(crate::specs::Input::choice))]
fn delay(cursor: &mut Cursor<'_>) -> Result<Delay, ParseFault>
    ensures { Reads (spec.delay cursor.old) result cursor.new }
{
    if cursor.sees_amount() {
        Ok(Delay::Amount(cursor.amount()?))
    } else {
        delay_values(cursor)
    }
}

/// `# amount` or `# ( value , .. )`
#[tactic(auto, unfolding(crate::specs::Drives::delay_spec))]
fn delay_spec(cursor: &mut Cursor<'_>) -> Result<DelaySpec, ParseFault>
    ensures { Reads (spec.delay_spec cursor.old) result cursor.new }
{
    let location = cursor.mark(b'#')?;
    let delay = delay(cursor)?;
    Ok(DelaySpec { location, delay })
}

/// A delay, where a `#` comes next.
#[tactic(auto, unfolding(crate::specs::Input::optional))]
pub fn delay_if_there(cursor: &mut Cursor<'_>) -> Result<Option<DelaySpec>, ParseFault>
    ensures { Reads (input.optional (sees_mark 35) spec.delay_spec cursor.old) result cursor.new }
{
    if cursor.sees_mark(b'#') {
        Ok(Some(delay_spec(cursor)?))
    } else {
        Ok(None)
    }
}
