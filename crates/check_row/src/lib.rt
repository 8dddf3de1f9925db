// The tests of one row: what the constraints that apply there compare, and whether they hold (document 01, "The 52
// constraints").
#![tactic(auto)]

ghost use Rattle.std.specs.Prelude.{◌≡◌};
ghost use Rattle.table.specs.Table.{IsTable};
ghost use Rattle.check_constraints.specs.Constraints.{holds};
ghost use Rattle.check_row.specs.TestHelpers.{forward_of, back_after, InTrace, AppliesIn};

use check_applies::Compared;
use check_steps::BackReady;
use field_elements::Fp;
use numbers::{RowNumber, WIDTH};
use table::Ready;

// The tested columns of forward of the row, at rows 1 to 30.
pub fn forward_of(ready: Ready, trace: &[u64], row: RowNumber) -> [u64; WIDTH]
    requires { InTrace trace.now row.0 }
    ensures { result ≡ forward_of ready.entry.table.now trace.now row.0 }
{
    match row.within().0 {
        1..=30 => trace_rows::forward(ready, trace, row),
        _ => [0u64; WIDTH],
    }
}

// Back of the next row, at rows 0 to 29.
pub fn back_after(back: BackReady, trace: &[u64], row: RowNumber) -> [u64; WIDTH]
    requires { InTrace trace.now row.0 }
    ensures { result ≡ back_after back.entry.table.now trace.now row.0 }
{
    match row.within().0 {
        0..=29 => trace_rows::back(back, trace, row.next()),
        _ => [0u64; WIDTH],
    }
}

// Whether the constraint holds at the row, from forward of this row and back of the next, each computed once for all of
// the row's tests.
pub fn holds(
    table: &[u64],
    trace: &[u64],
    claim: &[u64; 4],
    row: RowNumber,
    constraint: usize,
    forward: &[u64; WIDTH],
    back: &[u64; WIDTH],
) -> bool
    requires { IsTable table.now × AppliesIn trace.now row.0 constraint
        × (forward.now ≡ forward_of table.now trace.now row.0)
        × (back.now ≡ back_after table.now trace.now row.0) }
    ensures { result ≡ holds table.now trace.now claim.now row.0 constraint }
{
    match Compared::of(constraint) {
        Compared::Zeros(j) => trace_rows::cell(trace, row, j) == 0,
        Compared::NewZeros(j) => back[j] == table::initial_constant(table)[j],
        Compared::Starts(j) => {
            let initial = Fp::of(table::initial_constant(table)[j]);
            let sum = Fp::of(trace_rows::cell(trace, row, j)).add(initial);
            sum.word == back[j]
        }
        Compared::GoesOn(j) => forward[j] == back[j],
        Compared::Ends(j) => forward[j] == trace_rows::cell(trace, row.next(), j),
        Compared::Joins(j) => {
            trace_rows::cell(trace, row, j) == trace_rows::cell(trace, row.next(), j)
        }
        Compared::Claims(j) => trace_rows::cell(trace, row, j) == claim[j],
    }
}
