// Which constraints apply at a row (document 01, "The 52 constraints"; document 02, U6).
#![tactic(auto)]

ghost use Rattle.std.specs.Prelude.{◌≡◌, ◌&&◌, ◌||◌, not, ◌≤◌, ◌<◌, ◌^◌, ltb};
ghost use Rattle.numbers.specs.Numbers.{within};
ghost use Rattle.check_constraints.specs.Constraints.{between, entering, last_row, claim_row, applies};
ghost use Rattle.check_applies.specs.ComparedHelpers.{IsCompared};
ghost use Rattle.check_applies.specs.SpanHelpers.{span_of};

use numbers::{BATCH_ROWS, RowNumber};

// Rows 10 and 20 of a batch, after which a new tap enters.
pub fn is_entering(row: RowNumber) -> bool
    ensures { result ≡ entering row.0 }
{
    matches!(row.within().0, 10 | 20)
}

// Rows 1 to 29 of a batch, whose next row is a middle state too, but at rows 10 and 20 columns 0 to 3 only.
fn is_middle(row: RowNumber, column: usize) -> bool
    ensures { result ≡ (between 1 29 (within row.0) && (not (entering row.0) || ltb column 4)) }
{
    matches!(row.within().0, 1..=29) && (!is_entering(row) || column < 4)
}

// The last row of k batches.
fn is_last_row(k: usize, row: RowNumber) -> bool
    requires { (k < 2 ^ 32) × (row.0 < 2 ^ 40) }
    ensures { result ≡ last_row k row.0 }
{
    row.0 + 1 == BATCH_ROWS * k
}

// The row that is compared with the claim about c batches: the last of them.
fn is_claim_row(c: usize, row: RowNumber) -> bool
    requires { (c < 2 ^ 32) × (row.0 < 2 ^ 40) }
    ensures { result ≡ claim_row c row.0 }
{
    is_last_row(c, row)
}

// The families of document 01's list, each by the number of its first constraint. It has one for each column that it
// compares, up to the first of the next family.
pub const ZEROS: usize = 1;

pub const NEW_ZEROS: usize = 5;

pub const STARTS: usize = 9;

pub const GOES_ON: usize = 21;

pub const ENDS: usize = 33;

pub const JOINS: usize = 45;

pub const CLAIMS: usize = 49;

// One more than the last constraint.
const END: usize = 53;

// The row of a batch that the next batch's row 0 is joined to.
const JOINED_ROW: usize = 31;

// What a constraint compares, by its family, at one column.
#[derive(Clone, Copy)]
pub enum Compared {
    // Row 0: columns 8 to 11 are 0.
    Zeros(usize),
    // Rows 10 and 20: back of the next row equals K_0, columns 8 to 11.
    NewZeros(usize),
    // Row 0 plus K_0 equals back.
    Starts(usize),
    // Rows 1 to 29: forward equals back, but at rows 10 and 20 columns 0 to 3 only.
    GoesOn(usize),
    // Row 30: forward equals row 31.
    Ends(usize),
    // Row 31 of every batch but the last equals the next row 0, columns 0 to 3.
    Joins(usize),
    // The row of the claim equals the claim.
    Claims(usize),
}

impl Compared {
    pub fn of(constraint: usize) -> Compared
        requires { (1 ≤ constraint) × (constraint < 53) }
        ensures { IsCompared constraint result }
    {
        match constraint {
            ..NEW_ZEROS => Compared::Zeros(constraint - ZEROS + 8),
            NEW_ZEROS..STARTS => Compared::NewZeros(constraint - NEW_ZEROS + 8),
            STARTS..GOES_ON => Compared::Starts(constraint - STARTS),
            GOES_ON..ENDS => Compared::GoesOn(constraint - GOES_ON),
            ENDS..JOINS => Compared::Ends(constraint - ENDS),
            JOINS..CLAIMS => Compared::Joins(constraint - JOINS),
            _ => Compared::Claims(constraint - CLAIMS),
        }
    }
}

// Whether the constraint applies at a row of a trace of k batches with a claim about c of them.
pub fn applies(k: usize, c: usize, row: RowNumber, constraint: usize) -> bool
    requires { (k < 2 ^ 32) × (c < 2 ^ 32) × (row.0 < 2 ^ 40) × (1 ≤ constraint) × (constraint < 53) }
    ensures { result ≡ applies k c row.0 constraint }
{
    match Compared::of(constraint) {
        Compared::Zeros(_) => row.within().0 == 0,
        Compared::NewZeros(_) => is_entering(row),
        Compared::Starts(_) => row.within().0 == 0,
        Compared::GoesOn(column) => is_middle(row, column),
        Compared::Ends(_) => row.within().0 == 30,
        Compared::Joins(_) => row.within().0 == JOINED_ROW && !is_last_row(k, row),
        Compared::Claims(_) => is_claim_row(c, row),
    }
}

// The lowest constraint that can apply at a row, and one more than the highest, so that a row of twelve tests takes
// twelve steps.
#[derive(Clone, Copy)]
pub struct Span(pub usize, pub usize);

pub fn span_of(row: RowNumber) -> Span
    ensures { result ≡ span_of row.0 }
{
    match row.within().0 {
        0 => Span(ZEROS, GOES_ON),
        _ if is_entering(row) => Span(NEW_ZEROS, GOES_ON + 4),
        1..=29 => Span(GOES_ON, ENDS),
        30 => Span(ENDS, JOINS),
        _ => Span(JOINS, END),
    }
}
