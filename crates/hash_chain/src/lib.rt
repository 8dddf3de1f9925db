// The chain (document 01, "Hash and chain").
#![tactic(auto)]

ghost use Rattle.std.specs.Prelude.{◌≡◌, ◌++◌, ◌+◌, ◌*◌, ◌<◌, ◌≤◌, ◌^◌, length, take, replicate};
ghost use Rattle.field_words.specs.Words.{AllCanonical};
ghost use Rattle.matrix_ready.specs.MixingHelpers.{ready_words};
ghost use Rattle.table.specs.ReadyHelpers.{ready_left};
ghost use Rattle.hash.specs.Hash.{input, tap, output_at};
ghost use Rattle.hash_chain.specs.Answers.{chain_test, chain_answer};

use matrix_ready::READY_WORDS;
use numbers::{BATCH_TAP_WORDS, HashNumber, MOST_BATCHES, WIDTH};
use refusals::Refusal;
use table::Ready;

// w_0, which is the last output before the first hash, and eight zeros.
pub fn chain_start(taps: &[u64]) -> [u64; WIDTH]
    requires { 4 ≤ length taps.now }
    ensures { result ≡ tap taps.now 0 ++ replicate 8 0 }
{
    [taps[0], taps[1], taps[2], taps[3], 0, 0, 0, 0, 0, 0, 0, 0]
}

// The input of a hash: the last output, with which the last state begins, then the next tap and four zeros.
pub fn next_input(last: [u64; WIDTH], tap: [u64; 4]) -> [u64; WIDTH]
    ensures { result ≡ input (take 4 last) tap }
{
    [
        last[0], last[1], last[2], last[3], tap[0], tap[1], tap[2], tap[3], 0, 0, 0, 0,
    ]
}

// The input of that hash of the chain: its tap is the next one of the list.
pub fn input_of(hash: HashNumber, last: [u64; WIDTH], taps: &[u64]) -> [u64; WIDTH]
    requires { (hash.0 < 2 ^ 32) × (4 * hash.0 + 8 ≤ length taps.now) }
    ensures { result ≡ input (take 4 last) (tap taps.now (hash.0 + 1)) }
{
    let at = hash.tap().start();
    next_input(last, [taps[at], taps[at + 1], taps[at + 2], taps[at + 3]])
}

// The state that begins with the output of so many hashes. M comes made ready.
fn last_state(ready: Ready, taps: &[u64], hashes: usize) -> [u64; WIDTH]
    requires { (hashes < 2 ^ 32) × (4 * hashes + 4 ≤ length taps.now) × AllCanonical taps.now }
    ensures { take 4 result ≡ output_at ready.entry.table.now taps.now hashes }
{
    let mut state = chain_start(taps);
    for h in 0..hashes {
        let next = hash::final_state(ready, input_of(HashNumber(h), state, taps));
        state = next;
    }
    state
}

// What Chain tests: 1, 2, 4, 5, 6. The table test leaves M made ready.
fn test_chain(table: &[u64], taps: &[u64], ready: &mut [u64; READY_WORDS]) -> Result<(), Refusal>
    requires { length ready.old ≡ ready_words }
    ensures { (result ≡ chain_test table.now taps.now)
        × (ready.new ≡ ready_left table.now ready.old) }
{
    table::test_and_ready(table, ready)?;
    numbers::tap_batches(MOST_BATCHES, taps.len()).ok_or(Refusal::TapLength)?;
    if let Some(bad) = field_words::first_bad(taps) {
        return Err(Refusal::TapWord(bad));
    }
    Ok(())
}

// Chain: cells 0 to 3 of its last hash's final state.
pub fn chain(table: &[u64], taps: &[u64]) -> Result<[u64; 4], Refusal>
    ensures { result ≡ chain_answer table.now taps.now }
{
    let mut room = [0u64; READY_WORDS];
    test_chain(table, taps, &mut room)?;
    let k = taps.len() / BATCH_TAP_WORDS;
    let ready = Ready {
        table,
        matrix: &room,
    };
    let last = last_state(ready, taps, 3 * k);
    Ok([last[0], last[1], last[2], last[3]])
}
