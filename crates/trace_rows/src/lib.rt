// The rows of a lent trace: the view of a batch, a row's cells, its forward and back (document 01, "The trace",
// "The 52 constraints").
#![tactic(auto)]

ghost use Rattle.std.specs.Prelude.{◌≡◌, ◌<◌, ◌≤◌};
ghost use Rattle.lists.specs.Lists.{cell};
ghost use Rattle.field.specs.Field.{Canonical};
ghost use Rattle.field_words.specs.Words.{CanonicalTo};
ghost use Rattle.table.specs.Table.{IsTable, initial_constant};
ghost use Rattle.trace.specs.Trace.{row as cells_of};
ghost use Rattle.numbers.specs.Numbers.{width, within};
ghost use Rattle.check_constraints.specs.Constraints.{round, plus_first, forward, back as back_of};
ghost use Rattle.check_steps.specs.StepHelpers.{columns};
ghost use Rattle.trace_rows.specs.RowHelpers.{HasRow, tested_columns};

use check_steps::BackReady;
use field_elements::Fp;
use numbers::{RowNumber, WIDTH};
use table::Ready;

pub mod view;

// The cells of the row, by value.
pub fn cells(trace: &[u64], row: RowNumber) -> [u64; WIDTH]
    requires { HasRow trace.now row.0 }
    ensures { (result ≡ cells_of trace.now row.0) × CanonicalTo width result }
{
    let mut out = [0u64; WIDTH];
    out.copy_from_slice(view::trace_row(trace, row));
    out
}

// One cell of the row.
pub fn cell(trace: &[u64], row: RowNumber, column: usize) -> u64
    requires { HasRow trace.now row.0 × (column < width) }
    ensures { (result ≡ cell (cells_of trace.now row.0) column) × Canonical result }
{
    let lent = view::trace_row(trace, row);
    lent[column]
}

// The round whose middle state the row holds: rows 1 to 10, 11 to 20, 21 to 30 are rounds 0 to 9.
fn round_of(row: RowNumber) -> usize
    requires { 1 ≤ within row.0 }
    ensures { (result ≡ round row.0) × (result < 10) }
{
    (row.within().0 - 1) % 10
}

// The state plus K_0 in columns 0 to 3 only, as at rows 10 and 20.
fn plus_entering(table: &[u64], s: [u64; WIDTH]) -> [u64; WIDTH]
    requires { IsTable table.now × CanonicalTo width s }
    ensures { result ≡ plus_first 4 s (initial_constant table.now) }
{
    let constant = table::initial_constant(table);
    let mut out = s;
    for (j, k) in constant[..4].iter().enumerate() {
        out[j] = Fp::of(s[j]).add(Fp::of(*k)).word;
    }
    out
}

// The columns of forward of the row that are tested: its cells cubed, times M, plus its round's second-step constant;
// at rows 10 and 20 K_0 is added too.
pub fn forward(ready: Ready, trace: &[u64], row: RowNumber) -> [u64; WIDTH]
    requires { HasRow trace.now row.0 × (1 ≤ within row.0) }
    ensures { result ≡ columns (tested_columns row.0) (forward ready.entry.table.now trace.now row.0) }
{
    let s = cells(trace, row);
    if check_applies::is_entering(row) {
        let next = check_steps::forward_step(ready, round_of(row), s, 4);
        return plus_entering(ready.table, next);
    }
    check_steps::forward_step(ready, round_of(row), s, WIDTH)
}

// Back of the row: its cells less its round's first-step constant, times the inverse of M, then cubed.
pub fn back(back: BackReady, trace: &[u64], row: RowNumber) -> [u64; WIDTH]
    requires { HasRow trace.now row.0 × (1 ≤ within row.0) }
    ensures { result ≡ back_of back.entry.table.now trace.now row.0 }
{
    check_steps::back_step(back, round_of(row), cells(trace, row))
}
