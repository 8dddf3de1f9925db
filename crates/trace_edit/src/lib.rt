// Edit: a tap of an accepted trace replaced in place (document 02, U1 and U6).
#![tactic(auto)]

ghost use Rattle.std.specs.Prelude.{◌≡◌, ◌≤◌, ◌<◌, ◌^◌, length};
ghost use Rattle.refusals.specs.Answers.{with_value};
ghost use Rattle.numbers.specs.Numbers.{trace_words};
ghost use Rattle.check_constraints.specs.Constraints.{tests};
ghost use Rattle.trace_edit.specs.Answers.{edit_trace_test, edit_answer, edit_leaves};

use check_steps::{BackReady, Steps};
use matrix_ready::READY_WORDS;
use numbers::{BATCH_WORDS, BatchNumber, BatchRow, TapNumber};
use refusals::Refusal;
use table::Ready;

// 15; 9; 10; 6; 11: how Edit's tests end.
fn test_edit(
    steps: Steps,
    trace: &[u64],
    claim: &[u64; 4],
    c: usize,
    tap: TapNumber,
    words: &[u64],
    k: usize,
) -> Result<usize, Refusal>
    requires { (length trace.now ≡ trace_words k) × (c ≤ k) × (k < 2 ^ 32) }
    ensures { result ≡ with_value
        (edit_trace_test steps.entry.ready.table.now trace.now claim.now c tap.0 words.now k)
        (length (tests k c)) }
{
    if 3 * k < tap.0 {
        return Err(Refusal::NoSuchTap);
    }
    check_trace::test_claim(claim)?;
    check_trace::test_words(trace)?;
    check_trace::test_canonical(words, Refusal::TapWord)?;
    check_walk::walk_tests(steps, trace, claim, c, k)
}

// Edit: 1, 2, 4; 7; 17; 15; 9; 10; 6; 11. It writes when every test has passed.
pub fn edit(
    table: &[u64],
    trace: &mut [u64],
    claim: [u64; 4],
    c: usize,
    tap: TapNumber,
    words: [u64; 4],
) -> Result<[u64; 4], Refusal>
    ensures { (result ≡ edit_answer table.now trace.old claim c tap.0 words)
        × (trace.new ≡ edit_leaves table.now trace.old claim c tap.0 words) }
{
    let mut room = [0u64; READY_WORDS];
    check_trace::test_opening(table, trace, c, &mut room)?;
    let mut inverse = [0u64; READY_WORDS];
    check_steps::make_inverse_ready(table, &mut inverse);
    let ready = Ready {
        table,
        matrix: &room,
    };
    let back = BackReady {
        table,
        inverse: &inverse,
    };
    let steps = Steps { ready, back };
    let k = trace.len() / BATCH_WORDS;
    test_edit(steps, trace, &claim, c, tap, &words, k)?;
    trace_rewrite::rewrite(steps, k, tap, words, trace);
    // The claim's row begins with the output of the altered list's first 3c + 1 taps.
    let row = trace_rows::cells(trace, BatchNumber(c - 1).row(BatchRow(31)));
    Ok([row[0], row[1], row[2], row[3]])
}
