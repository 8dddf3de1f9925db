// Sizes; batch, row, hash and tap numbers (document 01, "The trace": counts of their own); the permitted batch counts
// ("Hash and chain").
#![tactic(auto)]

ghost use Rattle.std.specs.Prelude.{◌≡◌, ◌+◌, ◌*◌, ◌-◌, ◌/◌, ◌%◌, ◌≤◌, ◌<◌, ◌^◌};
ghost use Rattle.numbers.specs.Numbers.{width, batch_rows, within, first_row};
ghost use Rattle.numbers.specs.Numbers.{batches_if, is_tap_length, is_trace_length, permitted};
ghost use Rattle.numbers.specs.Numbers.{tap_word_batches, trace_word_batches};

// The cells of a state and of a row of the trace, and the side of M.
pub const WIDTH: usize = 12;

// The rows of a batch.
pub const BATCH_ROWS: usize = 32;

// The words of a batch in a trace.
pub const BATCH_WORDS: usize = BATCH_ROWS * WIDTH;

// The words of a tap.
pub const TAP_WORDS: usize = 4;

// The words of the two taps of a hash.
pub const PAIR_WORDS: usize = 2 * TAP_WORDS;

// The words of a batch in a list of taps, which has one tap more.
pub const BATCH_TAP_WORDS: usize = 3 * TAP_WORDS;

// A batch of three hashes, counted from 0.
#[derive(Clone, Copy)]
pub struct BatchNumber(pub usize);

// A row of the whole trace, counted from 0.
#[derive(Clone, Copy)]
pub struct RowNumber(pub usize);

// A row of a batch, counted from 0.
#[derive(Clone, Copy)]
pub struct BatchRow(pub usize);

// A hash of the chain, counted from 0.
#[derive(Clone, Copy)]
pub struct HashNumber(pub usize);

// A tap of the list, counted from 0.
#[derive(Clone, Copy)]
pub struct TapNumber(pub usize);

impl BatchNumber {
    // The row of the trace that is row `within` of the batch.
    pub fn row(self, within: BatchRow) -> RowNumber
        requires { (self.0 < 2 ^ 32) × (within.0 < batch_rows) }
        ensures { result.0 ≡ batch_rows * self.0 + within.0 }
    {
        RowNumber(BATCH_ROWS * self.0 + within.0)
    }
}

impl RowNumber {
    pub fn batch(self) -> BatchNumber
        ensures { result.0 ≡ self.0 / batch_rows }
    {
        BatchNumber(self.0 / BATCH_ROWS)
    }

    // The row's number within its batch.
    pub fn within(self) -> BatchRow
        ensures { result.0 ≡ within self.0 }
    {
        BatchRow(self.0 % BATCH_ROWS)
    }

    pub fn next(self) -> RowNumber
        requires { self.0 < 2 ^ 40 }
        ensures { result.0 ≡ self.0 + 1 }
    {
        RowNumber(self.0 + 1)
    }

    // The index of the row's first cell in the trace.
    pub fn start(self) -> usize
        requires { self.0 < 2 ^ 40 }
        ensures { result ≡ width * self.0 }
    {
        WIDTH * self.0
    }
}

impl HashNumber {
    pub fn batch(self) -> BatchNumber
        ensures { result.0 ≡ self.0 / 3 }
    {
        BatchNumber(self.0 / 3)
    }

    // The hash's number within its batch.
    pub fn within(self) -> usize
        ensures { result ≡ self.0 % 3 }
    {
        self.0 % 3
    }

    // The row with the hash's first middle state: row 1, 11 or 21 of its batch.
    pub fn first_row(self) -> RowNumber
        requires { self.0 / 3 < 2 ^ 32 }
        ensures { result.0 ≡ first_row self.0 }
    {
        self.batch().row(BatchRow(10 * self.within() + 1))
    }

    // The tap that the hash takes in; the first hash takes tap 0 as its left input too.
    pub fn tap(self) -> TapNumber
        requires { self.0 < 2 ^ 40 }
        ensures { result.0 ≡ self.0 + 1 }
    {
        TapNumber(self.0 + 1)
    }
}

impl TapNumber {
    // The hash that takes the tap in: the first hash takes both tap 0 and tap 1.
    pub fn hash(self) -> HashNumber
        ensures { result.0 ≡ self.0 - 1 }
    {
        if self.0 == 0 {
            return HashNumber(0);
        }
        HashNumber(self.0 - 1)
    }

    // The index of the tap's first word in the list.
    pub fn start(self) -> usize
        requires { self.0 < 2 ^ 40 }
        ensures { result ≡ 4 * self.0 }
    {
        TAP_WORDS * self.0
    }
}

// The most batches of a list of taps, of a trace and of a short file (document 02, U9).
pub const MOST_BATCHES: usize = 1 << 18;

// Whether k batches are permitted: from 1 to the most, with exactly one set bit.
pub fn is_permitted(most: usize, k: usize) -> bool
    ensures { result ≡ permitted most k }
{
    1 <= k && k <= most && k.count_ones() == 1
}

// The batches of a tap list of so many words, where they are permitted.
pub fn tap_batches(most: usize, words: usize) -> Option<usize>
    ensures { result ≡ batches_if (is_tap_length most words) (tap_word_batches words) }
{
    if words % BATCH_TAP_WORDS != TAP_WORDS {
        return None;
    }
    batch_count(most, words / BATCH_TAP_WORDS)
}

// The batches of a trace of so many words, where they are permitted.
pub fn trace_batches(most: usize, words: usize) -> Option<usize>
    ensures { result ≡ batches_if (is_trace_length most words) (trace_word_batches words) }
{
    if words % BATCH_WORDS != 0 {
        return None;
    }
    batch_count(most, words / BATCH_WORDS)
}

fn batch_count(most: usize, k: usize) -> Option<usize>
    ensures { result ≡ batches_if (permitted most k) k }
{
    is_permitted(most, k).then_some(k)
}
