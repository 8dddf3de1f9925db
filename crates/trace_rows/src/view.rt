// The batch view: rows of one batch, read out of the lent trace without copying it (document 01, "The trace",
// "The form each place takes"). Every row of a lent trace is read by `trace_row`.
ghost use Rattle.std.specs.Prelude.{◌≡◌, ◌+◌, ◌*◌, ◌<◌, ◌≤◌, ◌^◌, length};
ghost use Rattle.numbers.specs.Numbers.{batch_rows, width};
ghost use Rattle.trace.specs.Trace.{row};
ghost use Rattle.trace_rows.specs.RowHelpers.{LentRow};

use numbers::{BatchNumber, BatchRow, RowNumber, WIDTH};

// The lent trace, at one of its batches.
#[derive(Clone, Copy)]
pub struct Batch<'a> {
    pub trace: &'a [u64],
    pub batch: BatchNumber,
}

// Row `within` of the batch, from the trace itself: what the readers of a view call.
pub fn row_at(trace: &[u64], batch: BatchNumber, within: BatchRow) -> &[u64]
    requires { LentRow trace.now batch.0 within.0 }
    ensures { result.now ≡ row trace.now (batch_rows * batch.0 + within.0) }
{
    let row = batch.row(within);
    let start = row.start();
    let end = start + WIDTH;
    &trace[start..end]
}

// The view of one batch of the trace.
pub fn view<'a>(trace: &'a [u64], batch: BatchNumber) -> Batch<'a>
    ensures { (result.trace ≡ trace.entry) × (result.batch ≡ batch) }
{
    Batch { trace, batch }
}

// Row `within` of the batch that is viewed.
pub fn row<'a>(b: Batch<'a>, within: BatchRow) -> &'a [u64]
    requires { LentRow b.trace.now b.batch.0 within.0 }
    ensures { result.now ≡ row b.entry.trace.now (batch_rows * b.entry.batch.0 + within.0) }
{
    row_at(b.trace, b.batch, within)
}

// The same with plain parameters.
pub fn row_of(trace: &[u64], batch: BatchNumber, within: BatchRow) -> &[u64]
    requires { LentRow trace.now batch.0 within.0 }
    ensures { result.now ≡ row trace.now (batch_rows * batch.0 + within.0) }
{
    row(view(trace, batch), within)
}

// Row `number` of the whole trace, through the view of its batch.
pub fn trace_row(trace: &[u64], number: RowNumber) -> &[u64]
    requires { (number.0 < 2 ^ 37) × (width * number.0 + width ≤ length trace.now) }
    ensures { result.now ≡ row trace.now number.0 }
{
    row_of(trace, number.batch(), number.within())
}
