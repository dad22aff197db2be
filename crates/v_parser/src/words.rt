//! What reserved words stand for.

ghost use Rattle.std.specs.Prelude.{◌≡◌, is_some};
ghost use Rattle.std.specs.Option.{option_copied};
ghost use Rattle.v_parser.specs.Input as input;
ghost use Rattle.v_parser.specs.Input.{Reads};
ghost use Rattle.v_parser.specs.Words as spec;

use crate::cursor::{Cursor, is};
use crate::fault::ParseFault;
use v_tree::{
    Charge, Direction, Level, Location, LogicGate, ModuleWord, NetType, PullGate, Strength, Switch,
    TranGate, VectorWord,
};

/// What some of the reserved words stand for.
pub trait Meaning: Sized + Copy {
    ghost use Rattle.std.specs.Prelude.{◌≡◌, ℕ, List, Option};

    /// What a word stands for, where it is one of them.
    ghost stands_for: { List ℕ → Option Self };

    /// What a word stands for, where it is one of them.
    fn of(word: &[u8]) -> Option<Self>
        ensures { result ≡ stands_for word.now };
}

/// What was seen stands for, where it is one of the words.
pub fn meaning_of<M: Meaning>(seen: Option<&[u8]>) -> Option<M>
    ensures { result ≡ spec.word_meaning M.stands_for (option_copied seen.entry) }
{
    match seen {
        Some(word) => M::of(word),
        None => None,
    }
}

/// What the next token stands for, where it is one of the words.
fn next_meaning<M: Meaning>(cursor: &Cursor<'_>) -> Option<M>
    ensures { result ≡ spec.word_meaning M.stands_for (input.word_in (input.front cursor.now)) }
{
    meaning_of::<M>(cursor.seen_word())
}

/// Whether the next token is one of the words.
pub fn sees<M: Meaning>(cursor: &Cursor<'_>) -> bool
    ensures { result
        ≡ is_some (spec.word_meaning M.stands_for (input.word_in (input.front cursor.now))) }
{
    next_meaning::<M>(cursor).is_some()
}

/// What the next token stands for, where it is one of the words, with its location.
pub fn word_for<M: Meaning>(cursor: &mut Cursor<'_>) -> Result<(M, Location), ParseFault>
    ensures { Reads (input.token
        (λ f. spec.word_meaning M.stands_for (input.word_in f)) cursor.old) result cursor.new }
{
    match next_meaning::<M>(cursor) {
        Some(found) => {
            let location = cursor.location();
            cursor.advance();
            Ok((found, location))
        }
        None => Err(cursor.refuse()),
    }
}

impl Meaning for Direction {
    ghost use Rattle.v_parser.specs.Words.{direction_of};

    ghost stands_for = { direction_of };

    #[tactic(auto, unfolding(crate::specs::Words::direction_of, crate::specs::Words::direction_table))]
    fn of(word: &[u8]) -> Option<Direction> {
        if is(word, b"input") {
            Some(Direction::Input)
        } else if is(word, b"output") {
            Some(Direction::Output)
        } else if is(word, b"inout") {
            Some(Direction::Inout)
        } else {
            None
        }
    }
}

impl Meaning for NetType {
    ghost use Rattle.v_parser.specs.Words.{net_type_of};

    ghost stands_for = { net_type_of };

    #[tactic(auto, unfolding(crate::specs::Words::net_type_of, crate::specs::Words::net_type_table))]
    fn of(word: &[u8]) -> Option<NetType> {
        if is(word, b"wire") {
            Some(NetType::Wire)
        } else if is(word, b"tri") {
            Some(NetType::Tri)
        } else if is(word, b"wand") {
            Some(NetType::Wand)
        } else if is(word, b"triand") {
            Some(NetType::Triand)
        } else if is(word, b"wor") {
            Some(NetType::Wor)
        } else if is(word, b"trior") {
            Some(NetType::Trior)
        } else if is(word, b"tri0") {
            Some(NetType::Tri0)
        } else if is(word, b"tri1") {
            Some(NetType::Tri1)
        } else if is(word, b"supply0") {
            Some(NetType::Supply0)
        } else if is(word, b"supply1") {
            Some(NetType::Supply1)
        } else {
            None
        }
    }
}

impl Meaning for VectorWord {
    ghost use Rattle.v_parser.specs.Words.{vector_word_of};

    ghost stands_for = { vector_word_of };

    #[tactic(auto, unfolding(crate::specs::Words::vector_word_of, crate::specs::Words::vector_word_table))]
    fn of(word: &[u8]) -> Option<VectorWord> {
        if is(word, b"vectored") {
            Some(VectorWord::Vectored)
        } else if is(word, b"scalared") {
            Some(VectorWord::Scalared)
        } else {
            None
        }
    }
}

impl Meaning for Charge {
    ghost use Rattle.v_parser.specs.Words.{charge_of};

    ghost stands_for = { charge_of };

    #[tactic(auto, unfolding(crate::specs::Words::charge_of, crate::specs::Words::charge_table))]
    fn of(word: &[u8]) -> Option<Charge> {
        if is(word, b"small") {
            Some(Charge::Small)
        } else if is(word, b"medium") {
            Some(Charge::Medium)
        } else if is(word, b"large") {
            Some(Charge::Large)
        } else {
            None
        }
    }
}

impl Meaning for LogicGate {
    ghost use Rattle.v_parser.specs.Words.{logic_of};

    ghost stands_for = { logic_of };

    #[tactic(auto, unfolding(crate::specs::Words::logic_of, crate::specs::Words::logic_table))]
    fn of(word: &[u8]) -> Option<LogicGate> {
        if is(word, b"and") {
            Some(LogicGate::And)
        } else if is(word, b"nand") {
            Some(LogicGate::Nand)
        } else if is(word, b"or") {
            Some(LogicGate::Or)
        } else if is(word, b"nor") {
            Some(LogicGate::Nor)
        } else if is(word, b"xor") {
            Some(LogicGate::Xor)
        } else if is(word, b"xnor") {
            Some(LogicGate::Xnor)
        } else if is(word, b"buf") {
            Some(LogicGate::Buf)
        } else if is(word, b"not") {
            Some(LogicGate::Not)
        } else if is(word, b"bufif0") {
            Some(LogicGate::Bufif0)
        } else if is(word, b"bufif1") {
            Some(LogicGate::Bufif1)
        } else if is(word, b"notif0") {
            Some(LogicGate::Notif0)
        } else if is(word, b"notif1") {
            Some(LogicGate::Notif1)
        } else {
            None
        }
    }
}

impl Meaning for Switch {
    ghost use Rattle.v_parser.specs.Words.{switch_of};

    ghost stands_for = { switch_of };

    #[tactic(auto, unfolding(crate::specs::Words::switch_of, crate::specs::Words::switch_table))]
    fn of(word: &[u8]) -> Option<Switch> {
        if is(word, b"nmos") {
            Some(Switch::Nmos)
        } else if is(word, b"pmos") {
            Some(Switch::Pmos)
        } else if is(word, b"rnmos") {
            Some(Switch::Rnmos)
        } else if is(word, b"rpmos") {
            Some(Switch::Rpmos)
        } else if is(word, b"cmos") {
            Some(Switch::Cmos)
        } else if is(word, b"rcmos") {
            Some(Switch::Rcmos)
        } else if is(word, b"tranif0") {
            Some(Switch::Tranif0)
        } else if is(word, b"tranif1") {
            Some(Switch::Tranif1)
        } else if is(word, b"rtranif0") {
            Some(Switch::Rtranif0)
        } else if is(word, b"rtranif1") {
            Some(Switch::Rtranif1)
        } else {
            None
        }
    }
}

impl Meaning for TranGate {
    ghost use Rattle.v_parser.specs.Words.{tran_of};

    ghost stands_for = { tran_of };

    #[tactic(auto, unfolding(crate::specs::Words::tran_of, crate::specs::Words::tran_table))]
    fn of(word: &[u8]) -> Option<TranGate> {
        if is(word, b"tran") {
            Some(TranGate::Tran)
        } else if is(word, b"rtran") {
            Some(TranGate::Rtran)
        } else {
            None
        }
    }
}

impl Meaning for PullGate {
    ghost use Rattle.v_parser.specs.Words.{pull_of};

    ghost stands_for = { pull_of };

    #[tactic(auto, unfolding(crate::specs::Words::pull_of, crate::specs::Words::pull_table))]
    fn of(word: &[u8]) -> Option<PullGate> {
        if is(word, b"pullup") {
            Some(PullGate::Pullup)
        } else if is(word, b"pulldown") {
            Some(PullGate::Pulldown)
        } else {
            None
        }
    }
}

impl Meaning for ModuleWord {
    ghost use Rattle.v_parser.specs.Words.{opening_of};

    ghost stands_for = { opening_of };

    #[tactic(auto, unfolding(crate::specs::Words::opening_of, crate::specs::Words::opening_table))]
    fn of(word: &[u8]) -> Option<ModuleWord> {
        if is(word, b"module") {
            Some(ModuleWord::Module)
        } else if is(word, b"macromodule") {
            Some(ModuleWord::Macromodule)
        } else {
            None
        }
    }
}

impl Meaning for Level {
    ghost use Rattle.v_parser.specs.Words.{level_of};

    ghost stands_for = { level_of };

    #[tactic(auto, unfolding(crate::specs::Words::level_of, crate::specs::Words::level_table))]
    fn of(word: &[u8]) -> Option<Level> {
        if is(word, b"supply0") {
            Some(Level {
                strength: Strength::Supply,
                of_one: false,
            })
        } else if is(word, b"supply1") {
            Some(Level {
                strength: Strength::Supply,
                of_one: true,
            })
        } else if is(word, b"strong0") {
            Some(Level {
                strength: Strength::Strong,
                of_one: false,
            })
        } else if is(word, b"strong1") {
            Some(Level {
                strength: Strength::Strong,
                of_one: true,
            })
        } else if is(word, b"pull0") {
            Some(Level {
                strength: Strength::Pull,
                of_one: false,
            })
        } else if is(word, b"pull1") {
            Some(Level {
                strength: Strength::Pull,
                of_one: true,
            })
        } else if is(word, b"weak0") {
            Some(Level {
                strength: Strength::Weak,
                of_one: false,
            })
        } else if is(word, b"weak1") {
            Some(Level {
                strength: Strength::Weak,
                of_one: true,
            })
        } else if is(word, b"highz0") {
            Some(Level {
                strength: Strength::Highz,
                of_one: false,
            })
        } else if is(word, b"highz1") {
            Some(Level {
                strength: Strength::Highz,
                of_one: true,
            })
        } else {
            None
        }
    }
}
