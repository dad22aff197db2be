//! The report of a call, and its writing.

ghost use Rattle.std.specs.Prelude.{◌≡◌, ◌≢◌, ◌⊎◌, ℕ, ◌≤◌, [], length, IfOk, IfSome, Ok, IsOk, OnOk};
ghost use Rattle.outside_io.specs.Outside.{Rose, Gains, GainsPrefix};
ghost use Rattle.cfsim.specs.Words.{Call};
ghost use Rattle.cfsim.specs.Answer.{with_netlist, netlist_of_file};
ghost use Rattle.cfsim.specs.Messages.{cannot_read_line};
ghost use Rattle.cfsim.specs.Reports.{answer_of};
ghost use Rattle.cfsim.specs.Clauses.{IsAnswered};

use crate::files::{netlist_of_file, stimulus_of_file};
use crate::report::{Report, report_of_refusal, report_of_run};
use crate::status::Status;
use outside_io::{Shelf, Sink, write_whole};
use std::alloc::{AllocError, Global};

/// The report of a call of these two files.
pub fn respond<F: Shelf>(
    alloc: Global,
    shelf: &mut F,
    netlist: &str,
    vectors: &str,
) -> Result<Report, AllocError>
    // Where no call on the shelf failed, the report is the answer.
    ensures answered { IfOk result (λ report. report.status ≢ 1
        → IfSome (F.files shelf.old) (λ files. answer_of report
        ≡ with_netlist files (record { netlist = netlist.now; vectors = vectors.now })
        (netlist_of_file (files netlist.now)))) }
    ensures statuses { IfOk result (λ report. (report.status ≡ 1)
        ⊎ ((report.status ≡ 0) ⊎ ((3 ≤ report.status) × (report.status ≤ 6)))) }

    // Where one failed, the file is one of the two, and nothing before it refused.
    ensures rose { IfOk result (λ report. report.status ≡ 1
        → Rose (F.faults shelf.old) (F.faults shelf.new)) }
    ensures blames { IfOk result (λ report. report.status ≡ 1 → (F.blamed shelf.new ≡ netlist.now)
        ⊎ ((F.blamed shelf.new ≡ vectors.now)
        × IfSome (F.files shelf.old) (λ files. IsOk (netlist_of_file (files netlist.now))))) }
    ensures no_out { IfOk result (λ report. report.status ≡ 1 → report.out ≡ []) }
    ensures line { IfOk result (λ report. report.status ≡ 1
        → report.err ≡ cannot_read_line (F.blamed shelf.new)) }
{
    let circuit = match netlist_of_file(alloc, shelf, netlist) {
        Ok(circuit) => circuit,
        Err(refusal) => return report_of_refusal(alloc, refusal, 3, netlist),
    };
    match stimulus_of_file(alloc, shelf, vectors, &circuit) {
        Ok(stimulus) => {
            let report = report_of_run(alloc, &circuit, &stimulus)?;
            Ok(report)
        }
        Err(refusal) => report_of_refusal(alloc, refusal, 4, vectors),
    }
}

/// Writes the two texts, and answers the status, or 8 where a write failed.
pub fn deliver<O: Sink, E: Sink>(
    status: Status,
    out_text: &[u8],
    err_text: &[u8],
    out: &mut O,
    err: &mut E,
) -> Status
    ensures cases { (result ≡ status) ⊎ (result ≡ 8) }
    ensures out { result ≢ 8 → Gains (O.written out.old) (O.written out.new) out_text.now }
    ensures err { result ≢ 8 → Gains (E.written err.old) (E.written err.new) err_text.now }
    ensures rose { status ≢ 8 → result ≡ 8
        → Rose (O.faults out.old) (O.faults out.new) ⊎ Rose (E.faults err.old) (E.faults err.new) }
    ensures out_prefix { status ≢ 8 → result ≡ 8
        → GainsPrefix (O.written out.old) (O.written out.new) out_text.now }
    ensures err_prefix { status ≢ 8 → result ≡ 8
        → GainsPrefix (E.written err.old) (E.written err.new) err_text.now }
{
    if write_whole(out, out_text).is_err() {
        return Status::new(8);
    }
    if write_whole(err, err_text).is_err() {
        return Status::new(8);
    }
    status
}
