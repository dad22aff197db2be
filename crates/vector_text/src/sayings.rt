ghost use Rattle.std.specs.Prelude.{◌≡◌, IfOk};
ghost use Rattle.line_text.specs.Fields.{fields_of};
ghost use Rattle.vector_text.specs.Sayings.{said_of, values_said, strobe_said, end_said, expect_said, repeat_said, endrepeat_said};

use crate::said::{Repeat, Said, Version};
use crate::stimulus::{StimulusLine, StimulusWhat};
use crate::values::values_in;
use level_range::Logic;
use line_text::{next_field, number, one_field, three_fields, two_fields};
use std::alloc::{AllocError, Global};

#[tactic(auto, unfolding(crate::specs::Sayings::strobe_said))]
fn strobe_said(fields: &[u8]) -> Option<Said>
    ensures { result ≡ strobe_said (fields_of fields.now) }
{
    let time = number(one_field(fields)?)?;
    let what = StimulusWhat::Strobe;
    Some(Said::Timed(StimulusLine { time, what }))
}

#[tactic(auto, unfolding(crate::specs::Sayings::end_said))]
fn end_said(fields: &[u8]) -> Option<Said>
    ensures { result ≡ end_said (fields_of fields.now) }
{
    let time = number(one_field(fields)?)?;
    Some(Said::Ends(time))
}

#[tactic(auto, unfolding(crate::specs::Sayings::repeat_said))]
fn repeat_said(fields: &[u8]) -> Option<Said>
    ensures { result ≡ repeat_said (fields_of fields.now) }
{
    let (first, second, third) = three_fields(fields)?;
    let count = number(first)?;
    let start = number(second)?;
    let period = number(third)?;
    if count == 0 || period == 0 {
        return None;
    }
    Some(Said::Opens(Repeat {
        count,
        start,
        period,
    }))
}

#[tactic(auto, unfolding(crate::specs::Sayings::endrepeat_said))]
fn endrepeat_said(fields: &[u8]) -> Option<Said>
    ensures { result ≡ endrepeat_said (fields_of fields.now) }
{
    match next_field(fields) {
        None => Some(Said::Closes),
        Some(_) => None,
    }
}

#[tactic(auto, unfolding(crate::specs::Sayings::expect_said))]
fn expect_said(alloc: Global, fields: &[u8]) -> Result<Option<Said>, AllocError>
    ensures { IfOk result (λ said. said ≡ expect_said (fields_of fields.now)) }
{
    if let Some((first, second)) = two_fields(fields)
        && let Some(time) = number(first)
        && let Some(wanted) = values_in::<Option<Logic>>(alloc, second)?
    {
        let what = StimulusWhat::Expect(wanted);
        return Ok(Some(Said::Timed(StimulusLine { time, what })));
    }
    Ok(None)
}

#[tactic(auto, unfolding(crate::specs::Sayings::values_said))]
fn values_said(alloc: Global, first: &[u8], fields: &[u8]) -> Result<Option<Said>, AllocError>
    ensures { IfOk result (λ said. said ≡ values_said first.now (fields_of fields.now)) }
{
    if let Some(time) = number(first)
        && let Some(second) = one_field(fields)
        && let Some(values) = values_in::<Logic>(alloc, second)?
    {
        let what = StimulusWhat::Values(values);
        return Ok(Some(Said::Timed(StimulusLine { time, what })));
    }
    Ok(None)
}

/// What a line behind the head says, where it has a form of its version.
#[tactic(auto, unfolding(crate::specs::Sayings::said_of))]
pub fn said_in(alloc: Global, version: Version, line: &[u8]) -> Result<Option<Said>, AllocError>
    ensures { IfOk result (λ said. said ≡ said_of version (fields_of line.now)) }
{
    let Some((word, fields)) = next_field(line) else {
        return Ok(None);
    };
    let second = version == Version::Second;
    if word == b"strobe".as_slice() {
        Ok(strobe_said(fields))
    } else if word == b"end".as_slice() {
        Ok(end_said(fields))
    } else if second && word == b"expect".as_slice() {
        expect_said(alloc, fields)
    } else if second && word == b"repeat".as_slice() {
        Ok(repeat_said(fields))
    } else if second && word == b"endrepeat".as_slice() {
        Ok(endrepeat_said(fields))
    } else {
        values_said(alloc, word, fields)
    }
}
