// The walk through the tests of a trace (document 01, "The 52 constraints"; document 02, U6).
#![tactic(auto)]

ghost use Rattle.std.specs.Prelude.{◌≡◌, ◌*◌, ◌≤◌, ◌<◌, ◌^◌, length};
ghost use Rattle.field_words.specs.Words.{AllCanonical};
ghost use Rattle.numbers.specs.Numbers.{trace_words};
ghost use Rattle.refusals.specs.Answers.{with_value};
ghost use Rattle.check_constraints.specs.Constraints.{tests, constraint_test};

use check_steps::Steps;
use numbers::{BATCH_ROWS, RowNumber};
use refusals::Refusal;

// The walk through the tests in their order, which stops at the first that fails.
pub fn walk_tests(
    steps: Steps,
    trace: &[u64],
    claim: &[u64; 4],
    c: usize,
    k: usize,
) -> Result<usize, Refusal>
    requires { AllCanonical trace.now × (length trace.now ≡ trace_words k) × (c ≤ k) × (k < 2 ^ 32) }
    ensures { result ≡ with_value (constraint_test steps.entry.ready.table.now trace.now claim.now c k)
        (length (tests k c)) }
{
    let table = steps.ready.table;
    let rows = BATCH_ROWS * k;
    let mut tests: usize = 0;
    let mut i: usize = 0;
    'walk: loop {
        if rows <= i {
            break 'walk Ok(tests);
        }
        let row = RowNumber(i);
        let forward = check_row::forward_of(steps.ready, trace, row);
        let back = check_row::back_after(steps.back, trace, row);
        let span = check_applies::span_of(row);
        for constraint in span.0..span.1 {
            if check_applies::applies(k, c, row, constraint) {
                tests += 1;
                if !check_row::holds(table, trace, claim, row, constraint, &forward, &back) {
                    break 'walk Err(Refusal::Constraint {
                        row,
                        constraint,
                        tests,
                    });
                }
            }
        }
        i += 1;
    }
}
