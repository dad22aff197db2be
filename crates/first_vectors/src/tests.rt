ghost use Rattle.std.specs.Prelude.{IsTrue, IfOk, ◌≡◌};
ghost use Rattle.gate_net.specs.Sound.{IsSound};
ghost use Rattle.name_table.specs.Names.{is_distinct};

use super::*;
use byte_lists::{Bytes, NameList, NetList};
use gate_net::{BuildFault, GateList, Netlist, Stimulus};
use level_range::Logic;
use std::alloc::{AllocError, Global};
use std::fmt::Write;
use std::test::Fail;

/// The nets of `module latch(q, qn, s, r, \s+ )`, without its gates.
fn latch(alloc: Global) -> Result<Netlist, AllocError>
    ensures sound { IfOk result (λ netlist. IsSound netlist) }
    ensures distinct { IfOk result (λ netlist. IsTrue (is_distinct netlist.names)) }
{
    let q = Bytes::from_vec(Vec::from_slice(alloc, b"q")?);
    let qn = Bytes::from_vec(Vec::from_slice(alloc, b"qn")?);
    let s = Bytes::from_vec(Vec::from_slice(alloc, b"s")?);
    let r = Bytes::from_vec(Vec::from_slice(alloc, b"r")?);
    let escaped = Bytes::from_vec(Vec::from_slice(alloc, b"\\s+ ")?);
    Ok(Netlist {
        names: NameList::from_vec(vec![in alloc; q, qn, s, r, escaped]?),
        inputs: NetList::from_vec(vec![in alloc; 2, 3, 4]?),
        outputs: NetList::from_vec(vec![in alloc; 0, 1]?),
        gates: GateList::from_vec(Vec::new(alloc)),
    })
}

/// The listed inputs, each line with its time and values, and the end.
fn shown(alloc: Global, stimulus: &Stimulus) -> Result<String, AllocError> {
    let mut text = String::new(alloc);
    for net in stimulus.inputs.as_slice() {
        write!(text, "{net} ")?;
    }
    for line in stimulus.lines.as_slice() {
        let time = line.time;
        write!(text, "| {time} ")?;
        for value in line.values.as_slice() {
            text.push(match value {
                Logic::Zero => '0',
                Logic::One => '1',
                Logic::X => 'x',
                Logic::Z => 'z',
            })?;
        }
        text.push(' ')?;
    }
    let end = stimulus.end;
    write!(text, "| end {end}")?;
    Ok(text)
}

fn answer(alloc: Global, text: &str) -> Result<String, AllocError> {
    let netlist = latch(alloc)?;
    match read_vectors(alloc, text.as_bytes(), &netlist) {
        Ok(stimulus) => shown(alloc, &stimulus),
        Err(BuildFault::Unbuilt) => String::from_str(alloc, "unbuilt"),
        Err(BuildFault::Memory) => String::from_str(alloc, "memory"),
    }
}

#[test]
fn texts_in_the_form_are_read(rt: HostRuntime) -> Result<(), Fail> {
    let rows = [
        // The latch's text, and the same without the last line feed.
        (
            "vectors 1\ninputs s r\n0 01\n10 11\n20 10\nend 30\n",
            "2 3 | 0 01 | 10 11 | 20 10 | end 30",
        ),
        (
            "vectors 1\ninputs s r\n0 01\n10 11\n20 10\nend 30",
            "2 3 | 0 01 | 10 11 | 20 10 | end 30",
        ),
        // One input, the other order, no value line.
        ("vectors 1\ninputs r\n5 1\nend 6\n", "3 | 5 1 | end 6"),
        ("vectors 1\ninputs r s\n0 01\nend 9\n", "3 2 | 0 01 | end 9"),
        ("vectors 1\ninputs s\nend 0\n", "2 | end 0"),
        // Times of 1 to 20 digits, zeros in front, up to the greatest time; an end at the last time.
        ("vectors 1\ninputs s\n007 1\nend 0010\n", "2 | 7 1 | end 10"),
        (
            "vectors 1\ninputs s\n00000000000000000003 0\nend 4\n",
            "2 | 3 0 | end 4",
        ),
        (
            "vectors 1\ninputs s\n1099511627775 0\n1099511627776 1\nend 1099511627776\n",
            "2 | 1099511627775 0 | 1099511627776 1 | end 1099511627776",
        ),
        (
            "vectors 1\ninputs s\n0 0\n1 1\nend 1\n",
            "2 | 0 0 | 1 1 | end 1",
        ),
        (
            "vectors 1\ninputs s\nend 00001099511627776\n",
            "2 | end 1099511627776",
        ),
    ];
    for (text, expected) in rows {
        assert_eq!(rt; answer(rt.alloc(), text)?.as_str(), expected, "at {text:?}");
    }
    Ok(())
}

#[test]
fn escaped_names_end_with_their_space(rt: HostRuntime) -> Result<(), Fail> {
    let rows = [
        // The space that ends an escaped name separates it from the next field too.
        (
            "vectors 1\ninputs \\s+ r\n0 01\nend 1\n",
            "4 3 | 0 01 | end 1",
        ),
        (
            "vectors 1\ninputs r \\s+\n0 01\nend 1\n",
            "3 4 | 0 01 | end 1",
        ),
        // A space at the end of the line, and two spaces in a row, make an empty field.
        ("vectors 1\ninputs r \\s+ \n0 01\nend 1\n", "unbuilt"),
        ("vectors 1\ninputs \\s+  r\n0 01\nend 1\n", "unbuilt"),
        // No plain name is found with a backslash, and no escaped name without it.
        ("vectors 1\ninputs \\r\nend 1\n", "unbuilt"),
        ("vectors 1\ninputs s+\nend 1\n", "unbuilt"),
        // No input twice.
        ("vectors 1\ninputs \\s+ \\s+\n0 01\nend 1\n", "unbuilt"),
    ];
    for (text, expected) in rows {
        assert_eq!(rt; answer(rt.alloc(), text)?.as_str(), expected, "at {text:?}");
    }
    Ok(())
}
