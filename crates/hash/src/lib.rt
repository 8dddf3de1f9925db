// The Rescue hash (document 01, "Hash and chain").
#![tactic(auto)]

ghost use Rattle.std.specs.Prelude.{◌≡◌, ◌<◌, length};
ghost use Rattle.lists.specs.Lists.{cell, tab};
ghost use Rattle.field_words.specs.Words.{AllCanonical, CanonicalTo};
ghost use Rattle.numbers.specs.Numbers.{width};
ghost use Rattle.matrix_ready.specs.MixingHelpers.{ready_words};
ghost use Rattle.table.specs.Table.{IsTable};
ghost use Rattle.table.specs.ReadyHelpers.{ready_left};
ghost use Rattle.hash.specs.Hash.{plus, first_step, second_step, state_at, final_state};
ghost use Rattle.hash.specs.HashHelpers.{montgomery_cube};
ghost use Rattle.hash.specs.Answers.{hash_test, hash_answer};

use field_elements::Fp;
use field_words::Cells;
use matrix_ready::READY_WORDS;
use numbers::WIDTH;
use refusals::Refusal;
use table::Ready;

// 2^(64 (THIRD - 2)) mod p. A cell that is taken for a word of Montgomery's form stands for the cell divided by 2^64;
// times this factor its root is the cell's root, divided by 2^128, for which M made ready makes up.
const ROOT_FACTOR: u64 = 678424015035724853;

// The cube of every cell, divided by 2^128.
pub fn montgomery_cubes(s: Cells) -> Cells
    ensures { result.words ≡ tab width (λ j. montgomery_cube (cell s.words j)) }
{
    let q = field_montgomery::quotient(s.words[0]);
    let mut out = s;
    for x in out.words.iter_mut() {
        *x = field_montgomery::times(field_montgomery::times(*x, *x, q), *x, q);
    }
    out
}

// s plus a constant of the table, cell by cell.
pub fn plus(s: [u64; WIDTH], constant: &[u64]) -> [u64; WIDTH]
    requires { CanonicalTo width s × (length constant.now ≡ width) × AllCanonical constant.now }
    ensures { result ≡ plus s constant.now }
{
    let mut out = [0u64; WIDTH];
    for (j, k) in constant.iter().enumerate() {
        out[j] = Fp::of(s[j]).add(Fp::of(*k)).word;
    }
    out
}

// The state before round 0: the input plus K_0.
pub fn plus_initial(table: &[u64], input: [u64; WIDTH]) -> [u64; WIDTH]
    requires { IsTable table.now × CanonicalTo width input }
    ensures { result ≡ state_at table.now input 0 }
{
    plus(input, table::initial_constant(table))
}

// The first step of the round, to its middle state. Here and below M comes made ready, times 2^128, and roots and cubes
// come divided by it.
pub fn first_step(ready: Ready, round: usize, s: [u64; WIDTH]) -> [u64; WIDTH]
    requires { (round < 10) × CanonicalTo width s }
    ensures { result ≡ first_step ready.entry.table.now round s }
{
    let cells = Cells { words: s };
    let mixed = matrix_ready::mix(ready.matrix, field_roots::scaled_roots(cells, ROOT_FACTOR));
    plus(mixed.words, table::first_step_constant(ready.table, round))
}

// The second step of the round, from its middle state.
pub fn second_step(ready: Ready, round: usize, s: [u64; WIDTH]) -> [u64; WIDTH]
    requires { (round < 10) × CanonicalTo width s }
    ensures { result ≡ second_step ready.entry.table.now round s }
{
    let cells = Cells { words: s };
    let mixed = matrix_ready::mix(ready.matrix, montgomery_cubes(cells));
    plus(mixed.words, table::second_step_constant(ready.table, round))
}

// The state after the ten rounds.
pub fn final_state(ready: Ready, input: [u64; WIDTH]) -> [u64; WIDTH]
    requires { CanonicalTo width input }
    ensures { result ≡ final_state ready.entry.table.now input }
{
    let mut state = plus_initial(ready.table, input);
    for round in 0..10 {
        let next = second_step(ready, round, first_step(ready, round, state));
        state = next;
    }
    state
}

// What Hash tests, and Unhash before its 16: 1, 2, 4, 6. The table test leaves M made ready.
pub fn test_hash(
    table: &[u64],
    words: &[u64],
    ready: &mut [u64; READY_WORDS],
) -> Result<(), Refusal>
    requires { length ready.old ≡ ready_words }
    ensures { (result ≡ hash_test table.now words.now)
        × (ready.new ≡ ready_left table.now ready.old) }
{
    table::test_and_ready(table, ready)?;
    if let Some(bad) = field_words::first_bad(words) {
        return Err(Refusal::TapWord(bad));
    }
    Ok(())
}

// Hash: the final state of its two taps, all twelve cells (document 02, U3). Its input is the two taps and four zeros.
pub fn hash(table: &[u64], words: [u64; 8]) -> Result<[u64; WIDTH], Refusal>
    ensures { result ≡ hash_answer table.now words }
{
    let mut room = [0u64; READY_WORDS];
    test_hash(table, &words, &mut room)?;
    let input = [
        words[0], words[1], words[2], words[3], words[4], words[5], words[6], words[7], 0, 0, 0, 0,
    ];
    let ready = Ready {
        table,
        matrix: &room,
    };
    Ok(final_state(ready, input))
}
