// The section 3.1 trace of a list of taps: the builder (document 01, "The trace").
#![tactic(auto)]

ghost use Rattle.std.specs.Prelude.{◌≡◌, ◌+◌, ◌*◌, ◌-◌, ◌≤◌, ◌<◌, ◌^◌, length, take};
ghost use Rattle.field_words.specs.Words.{AllCanonical, CanonicalTo};
ghost use Rattle.numbers.specs.Numbers.{first_row, tap_words, trace_words, width};
ghost use Rattle.matrix_ready.specs.MixingHelpers.{ready_words};
ghost use Rattle.table.specs.ReadyHelpers.{ready_left};
ghost use Rattle.hash.specs.Hash.{middle_state, final_state, chain};
ghost use Rattle.trace.specs.Trace.{trace};
ghost use Rattle.trace.specs.RowHelpers.{with_rows, rows_before, hash_row};
ghost use Rattle.trace.specs.Answers.{build_test, build_answer, build_leaves};

use matrix_ready::READY_WORDS;
use numbers::{BATCH_TAP_WORDS, BATCH_WORDS, BatchRow, HashNumber, MOST_BATCHES, RowNumber, WIDTH};
use refusals::Refusal;
use table::Ready;

// The twelve cells into a part of twelve words.
pub fn put(part: &mut [u64], cells: [u64; WIDTH])
    requires { length part.old ≡ width }
    ensures { part.new ≡ cells }
{
    part.copy_from_slice(&cells);
}

// The twelve cells as that row of the destination.
fn write_row(destination: &mut [u64], row: RowNumber, cells: [u64; WIDTH])
    requires { (row.0 < 2 ^ 32) × (width * row.0 + 12 ≤ length destination.old) }
    ensures { destination.new ≡ with_rows (λ i. cells) row.0 (row.0 + 1) destination.old }
{
    let start = row.start();
    let end = start + WIDTH;
    put(&mut destination[start..end], cells);
}

// The ten middle states of a hash as the rows from the given one on. Its final state. Here and below M comes made ready.
fn write_rounds(
    ready: Ready,
    input: [u64; WIDTH],
    destination: &mut [u64],
    row: RowNumber,
) -> [u64; WIDTH]
    requires { CanonicalTo width input × (row.0 < 2 ^ 31) × (width * row.0 + 120 ≤ length destination.old) }
    ensures { (result ≡ final_state ready.entry.table.now input)
        × (destination.new
        ≡ with_rows (λ i. middle_state ready.entry.table.now input (i - row.0)) row.0 (row.0 + 10)
        destination.old) }
{
    let first = row.0;
    let mut state = hash::plus_initial(ready.table, input);
    for round in 0..10 {
        let middle = hash::first_step(ready, round, state);
        write_row(destination, RowNumber(first + round), middle);
        let next = hash::second_step(ready, round, middle);
        state = next;
    }
    state
}

// Row 0 of the batch, for its first hash: the input. The batch's other inputs have no row.
fn write_input(destination: &mut [u64], hash: HashNumber, input: [u64; WIDTH])
    requires { (hash.0 < 2 ^ 25) × (width * rows_before (hash.0 + 1) ≤ length destination.old) }
    ensures { destination.new
        ≡ with_rows (λ i. input) (rows_before hash.0) (first_row hash.0) destination.old }
{
    if hash.within() != 0 {
        return;
    }
    write_row(destination, hash.batch().row(BatchRow(0)), input);
}

// Row 31 of the batch, for its third hash: the final state. The batch's other final states have no row.
fn write_final(destination: &mut [u64], hash: HashNumber, state: [u64; WIDTH])
    requires { (hash.0 < 2 ^ 25) × (width * rows_before (hash.0 + 1) ≤ length destination.old) }
    ensures { destination.new
        ≡ with_rows (λ i. state) (first_row hash.0 + 10) (rows_before (hash.0 + 1)) destination.old }
{
    if hash.within() != 2 {
        return;
    }
    write_row(destination, hash.batch().row(BatchRow(31)), state);
}

// The rows that the hash fills, from its input. Its final state.
pub fn write_hash(
    ready: Ready,
    hash: HashNumber,
    input: [u64; WIDTH],
    destination: &mut [u64],
) -> [u64; WIDTH]
    requires { CanonicalTo width input × (hash.0 < 2 ^ 25)
        × (width * rows_before (hash.0 + 1) ≤ length destination.old) }
    ensures { (result ≡ final_state ready.entry.table.now input)
        × (destination.new
        ≡ with_rows (hash_row ready.entry.table.now input) (rows_before hash.0) (rows_before (hash.0 + 1))
        destination.old) }
{
    write_input(destination, hash, input);
    let state = write_rounds(ready, input, destination, hash.first_row());
    write_final(destination, hash, state);
    state
}

// The hashes one after the other. The state that begins with the chain's output.
fn write_hashes(ready: Ready, taps: &[u64], k: usize, destination: &mut [u64]) -> [u64; WIDTH]
    requires { AllCanonical taps.now × (k ≤ 2 ^ 20)
        × (length taps.now ≡ tap_words k) × (length destination.old ≡ trace_words k) }
    ensures { (take 4 result ≡ chain ready.entry.table.now taps.now k)
        × (destination.new ≡ trace ready.entry.table.now taps.now k) }
{
    let hashes = 3 * k;
    let mut state = hash_chain::chain_start(taps);
    for h in 0..hashes {
        let hash = HashNumber(h);
        let input = hash_chain::input_of(hash, state, taps);
        let next = write_hash(ready, hash, input, destination);
        state = next;
    }
    state
}

// What Build tests: 1, 2, 4, 5, 8, 6. The table test leaves M made ready.
fn test_build(
    table: &[u64],
    taps: &[u64],
    size: usize,
    ready: &mut [u64; READY_WORDS],
) -> Result<(), Refusal>
    requires { length ready.old ≡ ready_words }
    ensures { (result ≡ build_test table.now taps.now size)
        × (ready.new ≡ ready_left table.now ready.old) }
{
    table::test_and_ready(table, ready)?;
    let k = numbers::tap_batches(MOST_BATCHES, taps.len()).ok_or(Refusal::TapLength)?;
    if size != BATCH_WORDS * k {
        return Err(Refusal::DestinationLength);
    }
    if let Some(bad) = field_words::first_bad(taps) {
        return Err(Refusal::TapWord(bad));
    }
    Ok(())
}

// Build writes when all its tests have passed.
pub fn build(table: &[u64], taps: &[u64], destination: &mut [u64]) -> Result<[u64; 4], Refusal>
    ensures { (result ≡ build_answer table.now taps.now (length destination.old))
        × (destination.new
        ≡ build_leaves table.now taps.now destination.old) }
{
    let mut room = [0u64; READY_WORDS];
    test_build(table, taps, destination.len(), &mut room)?;
    let ready = Ready {
        table,
        matrix: &room,
    };
    let k = taps.len() / BATCH_TAP_WORDS;
    let last = write_hashes(ready, taps, k, destination);
    Ok([last[0], last[1], last[2], last[3]])
}
