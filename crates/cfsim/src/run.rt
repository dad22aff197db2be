//! The top call.

ghost use Rattle.std.specs.Prelude.{◌≡◌, ◌≤◌, ◌⊎◌, ℕ, List, [], length, Some, None, Err, IfSome};
ghost use Rattle.v_lexer.specs.declared.fault.FaultKind.{FaultKind};
ghost use Rattle.v_lexer.specs.declared.token.Token.{Token};
ghost use Rattle.v_lexer.specs.Reading.{AreTokensOf, StopsAt};
ghost use Rattle.v_tree.specs.declared.modules.Description.{Description};
ghost use Rattle.outside_io.specs.Outside.{Rose, Gains, GainsPrefix};
ghost use Rattle.cfsim.specs.Words.{call_of, texts};
ghost use Rattle.cfsim.specs.Messages.{usage_line, cannot_read_line, no_memory_line};
ghost use Rattle.cfsim.specs.Answer.{answer, netlist_limit, netlist_of_file};
ghost use Rattle.cfsim.specs.Netlists.{fault_of, netlist_of_descriptions, AreSpelled, IsRefusedAtToken};
ghost use Rattle.cfsim.specs.declared.refusal.Refusal.TheVariants.{Faulty};
ghost use Rattle.cfsim.specs.Clauses.{IsAnswered, IsNamedBy, IsNextFile, GainsMessage};

use crate::respond::{deliver, respond};
use crate::status::Status;
use crate::words::is_call;
use outside_io::{Gate, Shelf, Sink};
use std::alloc::Global;
use std::thread::Threads;

const USAGE: &[u8] =
    b"usage: cfsim [--top NAME] [--delays min|typ|max] [--passes N] [--jobs N] [--drop] [--observed] [--dict] NETLIST VECTORS [FAULTS] | --demo N\n";

const NO_MEMORY: &[u8] = b"cfsim: no memory\n";

/// Runs a call of the program: reads the files that the words name from the shelf, and writes the answer to the two
/// sinks.
///
/// The words are those behind the program's name. The status is 0 where the whole answer was written, 1 where a file
/// can't be read, 2 where the words are no call, 3 and 4 where the netlist or the vectors are refused, 6 where the
/// good circuit oscillates, 7 for want of memory and 8 where a write failed.
pub fn run<R: Threads + Sync, F: Shelf, O: Sink, E: Sink, G: Gate + Sync>(
    rt: &R,
    alloc: Global,
    words: &[String],
    shelf: &mut F,
    out: &mut O,
    err: &mut E,
    gate: &G,
) -> Status
    // The status is one of 0 to 8.
    ensures range { result ≤ 8 }

    // With 0, and with 2 to 6, the status is that of the answer, and each sink gained exactly its
    // text of the answer.
    ensures answered_status { IsAnswered result → IfSome (F.files shelf.old) (λ files.
        result ≡ (answer (texts words.now) files).status) }
    ensures answered_out { IsAnswered result → IfSome (F.files shelf.old) (λ files.
        Gains (O.written out.old) (O.written out.new) (answer (texts words.now) files).out) }
    ensures answered_err { IsAnswered result → IfSome (F.files shelf.old) (λ files.
        Gains (E.written err.old) (E.written err.new) (answer (texts words.now) files).err) }

    // With 2 the shelf wasn't asked: all of it is as before.
    ensures unasked { result ≡ 2 → shelf.new ≡ shelf.old }

    // 2 comes exactly where the words aren't a call, and then the usage line is written, whatever
    // the shelf tells.
    ensures no_call { result ≡ 2 → call_of (texts words.now) ≡ None }
    ensures no_call_only { call_of (texts words.now) ≡ None → (result ≡ 2) ⊎ (result ≡ 8) }
    ensures usage_out { result ≡ 2 → Gains (O.written out.old) (O.written out.new) [] }
    ensures usage_err { result ≡ 2 → Gains (E.written err.old) (E.written err.new) usage_line }

    // With 1 the words are a call, the shelf's count rose, and its blamed name is one of the files
    // that the words name. No file before that one in the order of refusals is missing from the
    // shelf or refused. `out` gained nothing, and `err` gained the line for status 1 with the
    // blamed name.
    ensures unread_rose { result ≡ 1 → Rose (F.faults shelf.old) (F.faults shelf.new) }
    ensures unread_named { result ≡ 1 → IsNamedBy (texts words.now) (F.blamed shelf.new) }
    ensures unread_next { result ≡ 1 → IfSome (F.files shelf.old) (λ files.
        IsNextFile (texts words.now) files (F.blamed shelf.new)) }
    ensures unread_out { result ≡ 1 → Gains (O.written out.old) (O.written out.new) [] }
    ensures unread_err { result ≡ 1
        → Gains (E.written err.old) (E.written err.new) (cannot_read_line (F.blamed shelf.new)) }

    // With 8 the count of a sink rose. `out` gained a prefix of the answer's text. `err` gained a
    // prefix of the answer's text, or of the line for status 1 or 7.
    ensures unwritten_rose { result ≡ 8
        → Rose (O.faults out.old) (O.faults out.new) ⊎ Rose (E.faults err.old) (E.faults err.new) }
    ensures unwritten_out { result ≡ 8 → IfSome (F.files shelf.old) (λ files.
        GainsPrefix (O.written out.old) (O.written out.new) (answer (texts words.now) files).out) }
    ensures unwritten_err { result ≡ 8 → IfSome (F.files shelf.old) (λ files.
        GainsMessage (E.written err.old) (E.written err.new) (answer (texts words.now) files).err
        (F.blamed shelf.new)) }

    // With 7 `out` gained a prefix of the answer's text, and `err` gained the line for status 7.
    ensures memory_out { result ≡ 7 → IfSome (F.files shelf.old) (λ files.
        GainsPrefix (O.written out.old) (O.written out.new) (answer (texts words.now) files).out) }
    ensures memory_err { result ≡ 7 → Gains (E.written err.old) (E.written err.new) no_memory_line }

    // Where the words are a call, the texts are accepted, the good run doesn't oscillate and no
    // count rose, the status is 0 with the whole text, or 7. (Those are the premises under which
    // the answer's status is 0.)
    ensures complete { IfSome (F.files shelf.old) (λ files.
        (answer (texts words.now) files).status ≡ 0
        → (Rose (F.faults shelf.old) (F.faults shelf.new) → ⊥)
        → (Rose (O.faults out.old) (O.faults out.new) → ⊥)
        → (Rose (E.faults err.old) (E.faults err.new) → ⊥)
        → (result ≡ 0) ⊎ (result ≡ 7)) }

    // The same of every answer: where no count rose, the status is the answer's, or 7.
    ensures exact { IfSome (F.files shelf.old) (λ files.
        (Rose (F.faults shelf.old) (F.faults shelf.new) → ⊥)
        → (Rose (O.faults out.old) (O.faults out.new) → ⊥)
        → (Rose (E.faults err.old) (E.faults err.new) → ⊥)
        → (result ≡ (answer (texts words.now) files).status) ⊎ (result ≡ 7)) }

    // What the answer takes from the text of a netlist, said without the functions that read it. A
    // text with a lexical fault is refused at its first one.
    ensures lexical_fault { (text : List ℕ) (wrong : FaultKind) (line : ℕ)
        → length text ≤ netlist_limit → StopsAt text wrong line
        → netlist_of_file (Some text) ≡ Err (Faulty (fault_of wrong) line) }
    // A text whose tokens spell modules, primitives and directives gives what these mean.
    ensures tree { (text : List ℕ) (tokens : List Token) (ds : List Description)
        → length text ≤ netlist_limit → AreTokensOf text tokens → AreSpelled text tokens ds
        → netlist_of_file (Some text) ≡ netlist_of_descriptions ds }
    // A text whose tokens spell none is refused at the line of one of them, as unsupported exactly
    // where the grammar leaves such a token out.
    ensures bad_token { (text : List ℕ) (tokens : List Token)
        → length text ≤ netlist_limit → AreTokensOf text tokens
        → ((ds : List Description) → AreSpelled text tokens ds → ⊥)
        → IsRefusedAtToken text tokens (netlist_of_file (Some text)) }
{
    let _ = rt;
    let _ = gate;
    if !is_call(words) {
        return deliver(Status::new(2), b"", USAGE, out, err);
    }
    match respond(alloc, shelf, words[0].as_str(), words[1].as_str()) {
        Ok(report) => deliver(
            report.status,
            report.out.as_slice(),
            report.err.as_slice(),
            out,
            err,
        ),
        Err(_) => deliver(Status::new(7), b"", NO_MEMORY, out, err),
    }
}
