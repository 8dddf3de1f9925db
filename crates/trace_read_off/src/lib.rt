// Read-off: Check, and then the taps that the trace holds (document 01, "The 52 constraints"; document 02, U6).
#![tactic(auto)]

ghost use Rattle.std.specs.Prelude.{◌≡◌, ◌+◌, ◌*◌, ◌^◌, ◌≤◌, ◌<◌, length};
ghost use Rattle.lists.specs.Lists.{tab};
ghost use Rattle.field_words.specs.Words.{AllCanonical};
ghost use Rattle.numbers.specs.Numbers.{tap_words, trace_words};
ghost use Rattle.check_constraints.specs.ReadOff.{read_input, read_word, read_taps};
ghost use Rattle.trace_read_off.specs.Answers.{read_off_answer, read_off_leaves};
ghost use Rattle.trace_read_off.specs.TapHelpers.{HasTap};

use check_steps::{BackReady, Steps};
use matrix_ready::READY_WORDS;
use numbers::{
    BATCH_TAP_WORDS, BATCH_WORDS, BatchRow, HashNumber, RowNumber, TAP_WORDS, TapNumber, WIDTH,
};
use refusals::Refusal;
use table::Ready;

// The input of a hash of the chain: row 0 of the batch for the first of its three hashes, for the others back less K_0
// at rows 10 and 20.
pub fn read_input(back: BackReady, trace: &[u64], hash: HashNumber) -> [u64; WIDTH]
    requires { HasTap trace.now (hash.0 + 1) }
    ensures { result ≡ read_input back.entry.table.now trace.now hash.0 }
{
    if hash.within() == 0 {
        return trace_rows::cells(trace, hash.batch().row(BatchRow(0)));
    }
    let state = trace_rows::back(back, trace, hash.first_row());
    check_steps::minus(state, table::initial_constant(back.table))
}

// A tap: columns 0 to 3 of the first row 0 for w_0, columns 4 to 7 of the input of the hash that takes it in for the
// others.
pub fn read_tap(back: BackReady, trace: &[u64], tap: TapNumber) -> [u64; 4]
    requires { HasTap trace.now tap.0 }
    ensures { result ≡ tab 4 (λ j. read_word back.entry.table.now trace.now (4 * tap.0 + j)) }
{
    if tap.0 == 0 {
        let first = trace_rows::cells(trace, RowNumber(0));
        return [first[0], first[1], first[2], first[3]];
    }
    let input = read_input(back, trace, tap.hash());
    [input[4], input[5], input[6], input[7]]
}

// The taps of a trace of k batches.
fn write_taps(back: BackReady, trace: &[u64], k: usize, destination: &mut [u64])
    requires { AllCanonical trace.now × (length trace.now ≡ trace_words k) × (1 ≤ k) × (k < 2 ^ 32)
        × (length destination.old ≡ tap_words k) }
    ensures { destination.new ≡ read_taps back.entry.table.now trace.now k }
{
    let taps = 3 * k + 1;
    for n in 0..taps {
        let tap = TapNumber(n);
        let words = read_tap(back, trace, tap);
        let start = tap.start();
        let end = start + TAP_WORDS;
        destination[start..end].copy_from_slice(&words);
    }
}

// Read-off: 1, 2, 4; 7; 17; 8; 9; 10; 11. It writes when every test has passed, and all taps, whatever c is.
pub fn read_off(
    table: &[u64],
    trace: &[u64],
    claim: [u64; 4],
    c: usize,
    destination: &mut [u64],
) -> Result<usize, Refusal>
    ensures { (result ≡ read_off_answer table.now trace.now claim c (length destination.old))
        × (destination.new
        ≡ read_off_leaves table.now trace.now claim c destination.old) }
{
    let mut room = [0u64; READY_WORDS];
    check_trace::test_opening(table, trace, c, &mut room)?;
    let k = trace.len() / BATCH_WORDS;
    if destination.len() != BATCH_TAP_WORDS * k + TAP_WORDS {
        return Err(Refusal::DestinationLength);
    }
    let mut inverse = [0u64; READY_WORDS];
    check_steps::make_inverse_ready(table, &mut inverse);
    let ready = Ready {
        table,
        matrix: &room,
    };
    let back = BackReady {
        table,
        inverse: &inverse,
    };
    let steps = Steps { ready, back };
    let tests = check_trace::test_trace(steps, trace, &claim, c, k)?;
    write_taps(steps.back, trace, k, destination);
    Ok(tests)
}
