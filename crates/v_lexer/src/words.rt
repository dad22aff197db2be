ghost use Rattle.std.specs.Prelude.{◌≡◌, ◌≤◌, ◌<◌, ℕ, ◌||◌, List, [], ◌∷◌, length, IfSome, IfNone, OnOk};
ghost use Rattle.std.specs.List.{list_all, prefix_len};
ghost use Rattle.name_table.specs.Names.{is_among};
ghost use Rattle.v_lexer.specs.Bytes.{is_name_byte};
ghost use Rattle.v_lexer.specs.Words.{is_in_word, words_of, left_out_words, is_reserved, begins_name, is_plain};

use crate::bytes::{after, before, is_letter, is_name_byte};
use name_table::NameTable;
use std::alloc::{AllocError, Global};

/// The words of the grammar.
const GRAMMAR_WORDS: &[u8] =
    b"module macromodule endmodule input output inout wire tri wand triand wor trior tri0 tri1 supply0 supply1 trireg assign vectored scalared small medium large strong0 strong1 pull0 pull1 weak0 weak1 highz0 highz1 tran rtran pullup pulldown and nand or nor xor xnor buf not bufif0 bufif1 notif0 notif1 nmos pmos rnmos rpmos cmos rcmos tranif0 tranif1 rtranif0 rtranif1 primitive table endtable endprimitive";

/// The words that the grammar leaves out.
const LEFT_OUT_WORDS: &[u8] =
    b"always automatic begin case casex casez deassign defparam disable edge else end endcase endfunction endgenerate endspecify endtask event for force forever fork function generate genvar if initial integer join localparam negedge parameter posedge real realtime reg release repeat signed specify specparam task time unsigned uwire wait while";

/// The reserved words of the profile, found by hash.
#[derive(Drop)]
pub struct ReservedWords {
    table: NameTable,
    ghost all: { (name : List ℕ) → is_among name table ≡ is_reserved name },
}

/// Whether the first byte is a letter or `_`.
fn begins_name(name: &[u8]) -> bool
    ensures { result ≡ begins_name name.now }
{
    match name {
        [first, ..] => is_letter(*first),
        [] => false,
    }
}

/// Whether each byte is a letter, a digit, `_` or `$`.
fn has_name_bytes(name: &[u8]) -> bool
    ensures { result ≡ list_all is_name_byte name.now }
{
    name.iter().all(|byte| is_name_byte(*byte))
}

/// How many bytes stand before the first space.
fn word_run(text: &[u8]) -> usize
    ensures len { result ≡ prefix_len is_in_word text.now }
    ensures within { result ≤ length text.now }
{
    text.iter().take_while(|byte| **byte != b' ').count()
}

/// The first word of a text of words, and the text after it.
#[tactic(auto, using(crate::proofs::Added::no_words))]
fn first_word(text: &[u8]) -> Option<(&[u8], &[u8])>
    ensures first { IfSome result (λ x. words_of text.now ≡ x.0.now ∷ words_of x.1.now) }
    ensures shorter { IfSome result (λ x. length x.1.now < length text.now) }
    ensures none { IfNone result (words_of text.now ≡ []) }
{
    if text.is_empty() {
        return None;
    }
    let len = word_run(text);
    let word = before(text, len);
    let rest = after(text, len + 1);
    Some((word, rest))
}

/// Whether a word stands in a text of words.
fn is_word_of(text: &[u8], word: &[u8]) -> bool
    ensures { result ≡ is_among word.now (words_of text.now) }
{
    let mut rest = text;
    while let Some((front, back)) = first_word(rest) {
        if word == front {
            return true;
        }
        rest = back;
    }
    false
}

/// Puts the words of a text into a table.
fn add_words(table: &mut NameTable, text: &[u8]) -> Result<(), AllocError>
    ensures { OnOk result
        ((name : List ℕ) → is_among name table.new
        ≡ (is_among name table.old || is_among name (words_of text.now))) }
{
    let mut rest = text;
    while let Some((front, back)) = first_word(rest) {
        table.add(front)?;
        rest = back;
    }
    Ok(())
}

/// Whether a word is one of those that the grammar leaves out: words of behavioural Verilog. Of these
/// it has `reg` and `initial` in primitives alone.
#[tactic(auto, unfolding(crate::specs::Words::left_out_words))]
pub fn is_left_out_word(word: &[u8]) -> bool
    ensures { result ≡ is_among word.now left_out_words }
{
    is_word_of(LEFT_OUT_WORDS, word)
}

impl ReservedWords {
    /// All reserved words.
    #[tactic(auto, unfolding(crate::specs::Words::grammar_words, crate::specs::Words::left_out_words, crate::specs::Words::reserved_words, crate::specs::Words::is_reserved))]
    pub fn new(alloc: Global) -> Result<ReservedWords, AllocError> {
        let mut table = NameTable::new(alloc);
        add_words(&mut table, GRAMMAR_WORDS)?;
        add_words(&mut table, LEFT_OUT_WORDS)?;
        Ok(ReservedWords { table })
    }

    /// Whether a name is a reserved word.
    pub fn contains(&self, name: &[u8]) -> bool
        ensures { result ≡ is_reserved name.now }
    {
        self.table.contains(name)
    }

    /// Whether a name can be written without a `\`: it is a letter or `_`, and then letters, digits,
    /// `_` and `$`, and no reserved word (IEEE 1364-2005, 3.7).
    pub fn is_plain(&self, name: &[u8]) -> bool
        ensures { result ≡ is_plain name.now }
    {
        begins_name(name) && has_name_bytes(name) && !self.contains(name)
    }
}
