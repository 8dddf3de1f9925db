// Check: the tests before the walk, and the walk (document 01, "The 52 constraints"; document 02, U6).
#![tactic(auto)]

ghost use Rattle.std.specs.Prelude.{◌≡◌, ◌≤◌, ◌<◌, ◌^◌, true, false, length, MatchResult};
ghost use Rattle.field_words.specs.Words.{canonical_words, first_bad};
ghost use Rattle.numbers.specs.Numbers.{trace_words};
ghost use Rattle.refusals.specs.Answers.{unless, with_value};
ghost use Rattle.matrix_ready.specs.MixingHelpers.{ready_words};
ghost use Rattle.table.specs.ReadyHelpers.{ready_left};
ghost use Rattle.check_constraints.specs.Constraints.{tests};
ghost use Rattle.check_trace.specs.Answers.{opening_test, trace_test, check_answer};

use check_steps::{BackReady, Steps};
use matrix_ready::READY_WORDS;
use numbers::{BATCH_WORDS, MOST_BATCHES};
use refusals::Refusal;
use table::Ready;

// 1, 2, 4; 7; 17: how Check, Read-off and Edit begin. The table test leaves M made ready, for the walk.
pub fn test_opening(
    table: &[u64],
    trace: &[u64],
    c: usize,
    ready: &mut [u64; READY_WORDS],
) -> Result<(), Refusal>
    requires { length ready.old ≡ ready_words }
    ensures { (result ≡ opening_test table.now trace.now c)
        × (ready.new ≡ ready_left table.now ready.old) }
{
    table::test_and_ready(table, ready)?;
    let k = numbers::trace_batches(MOST_BATCHES, trace.len()).ok_or(Refusal::TraceLength)?;
    if c < 1 {
        return Err(Refusal::ClaimBatches);
    }
    if k < c {
        return Err(Refusal::ClaimBatches);
    }
    Ok(())
}

// Words are canonical, or refused at the first that is not.
pub fn test_canonical<F: FnOnce(usize) -> Refusal>(words: &[u64], refusal: F) -> Result<(), Refusal>
    requires { F.IsAlwaysCallable refusal }
    ensures { MatchResult result (λ _. canonical_words words.now ≡ true)
        (λ r. (canonical_words words.now ≡ false) × F.post refusal (first_bad words.now) r) }
{
    match field_words::first_bad(words) {
        None => Ok(()),
        Some(bad) => Err(refusal(bad)),
    }
}

// 9 and 10 are functions of their own, since Edit has 6 between them and the walk.

// 9: the words of the claim.
pub fn test_claim(claim: &[u64]) -> Result<(), Refusal>
    ensures { result ≡ unless (canonical_words claim.now)
        (Refusal.ClaimWord (first_bad claim.now)) (Ok tt) }
{
    test_canonical(claim, Refusal::ClaimWord)
}

// 10: the words of the trace.
pub fn test_words(trace: &[u64]) -> Result<(), Refusal>
    ensures { result ≡ unless (canonical_words trace.now)
        (Refusal.TraceWord (first_bad trace.now)) (Ok tt) }
{
    test_canonical(trace, Refusal::TraceWord)
}

// 9; 10; 11: how Check and Read-off end.
pub fn test_trace(
    steps: Steps,
    trace: &[u64],
    claim: &[u64; 4],
    c: usize,
    k: usize,
) -> Result<usize, Refusal>
    requires { (length trace.now ≡ trace_words k) × (c ≤ k) × (k < 2 ^ 32) }
    ensures { result ≡ with_value (trace_test steps.entry.ready.table.now trace.now claim.now c k)
        (length (tests k c)) }
{
    test_claim(claim)?;
    test_words(trace)?;
    check_walk::walk_tests(steps, trace, claim, c, k)
}

// Check: 1, 2, 4; 7; 17; 9; 10; 11.
pub fn check(table: &[u64], trace: &[u64], claim: [u64; 4], c: usize) -> Result<usize, Refusal>
    ensures { result ≡ check_answer table.now trace.now claim c }
{
    let mut room = [0u64; READY_WORDS];
    test_opening(table, trace, c, &mut room)?;
    let mut inverse = [0u64; READY_WORDS];
    check_steps::make_inverse_ready(table, &mut inverse);
    let ready = Ready {
        table,
        matrix: &room,
    };
    let back = BackReady {
        table,
        inverse: &inverse,
    };
    let k = trace.len() / BATCH_WORDS;
    test_trace(Steps { ready, back }, trace, &claim, c, k)
}
