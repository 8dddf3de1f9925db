// Unhash: from a final state back to the two taps whose Hash ends there (document 02, U5).
#![tactic(auto)]

ghost use Rattle.std.specs.Prelude.{◌≡◌, ◌<◌};
ghost use Rattle.field_words.specs.Words.{CanonicalTo};
ghost use Rattle.numbers.specs.Numbers.{width};
ghost use Rattle.hash_undo.specs.Unhash.{second_step_undone, rounds_undone, ends_in_zeros};
ghost use Rattle.hash_undo.specs.Answers.{unhash_answer};

use check_steps::BackReady;
use field_words::Cells;
use matrix_ready::READY_WORDS;
use numbers::{PAIR_WORDS, WIDTH};
use refusals::Refusal;

// 2^(64 THIRD (1 - 2 THIRD)) mod p: times this factor a root makes up for the scale of the inverse made ready, which is
// the cube root of 2^128, and for cells that are taken for words of Montgomery's form.
const ROOT_FACTOR: u64 = 1320274735724748368;

// The second step of the round undone, to its middle state: s less its constant, times the inverse of M, then rooted.
fn undo_second_step(back: BackReady, round: usize, s: [u64; WIDTH]) -> [u64; WIDTH]
    requires { (round < 10) × CanonicalTo width s }
    ensures { result ≡ second_step_undone back.entry.table.now round s }
{
    let less = Cells {
        words: check_steps::minus(s, table::second_step_constant(back.table, round)),
    };
    field_roots::scaled_roots(matrix_ready::mix(back.inverse, less), ROOT_FACTOR).words
}

// The state before round 0, from the one after round 9: the last round is undone first.
fn undo_rounds(back: BackReady, s: [u64; WIDTH]) -> [u64; WIDTH]
    requires { CanonicalTo width s }
    ensures { result ≡ rounds_undone back.entry.table.now 10 s }
{
    let mut state = s;
    for undone in 0..10 {
        let round = 9 - undone;
        let middle = undo_second_step(back, round, state);
        let before = check_steps::back_step(back, round, middle);
        state = before;
    }
    state
}

// Whether an input is one of Hash: two taps, and then four zeros.
fn ends_in_zeros(input: [u64; WIDTH]) -> bool
    ensures { result ≡ ends_in_zeros input }
{
    input[PAIR_WORDS..].iter().all(|cell| *cell == 0)
}

// Unhash: 1, 2, 4, 6, 16. The cells are tested as Hash tests the words of its taps.
pub fn unhash(table: &[u64], cells: [u64; WIDTH]) -> Result<[u64; PAIR_WORDS], Refusal>
    ensures { result ≡ unhash_answer table.now cells }
{
    let mut room = [0u64; READY_WORDS];
    hash::test_hash(table, &cells, &mut room)?;
    // M made ready has served the table test; its room takes the inverse.
    check_steps::make_inverse_ready(table, &mut room);
    let back = BackReady {
        table,
        inverse: &room,
    };
    let state = undo_rounds(back, cells);
    let input = check_steps::minus(state, table::initial_constant(table));
    if !ends_in_zeros(input) {
        return Err(Refusal::NoPair);
    }
    Ok([
        input[0], input[1], input[2], input[3], input[4], input[5], input[6], input[7],
    ])
}
