// What is turned back (document 01, the section of that name; document 02): the refusals, and what is told of each.
#![tactic(auto)]

ghost use Rattle.std.specs.Prelude.{◌≡◌};
ghost use Rattle.refusals.specs.Refusals.{alone, indexed, told};

use numbers::RowNumber;

// A cause, with what is returned with its number. `told` lists number and values for each. `tests` of `Constraint` is
// the failing test's place in their order (document 02, U4).
#[derive(Clone, Copy)]
pub enum Refusal {
    TableLength,
    TableWord(usize),
    NoInverse,
    WrongInverse(usize),
    TapLength,
    TapWord(usize),
    TraceLength,
    DestinationLength,
    ClaimWord(usize),
    TraceWord(usize),
    Constraint {
        row: RowNumber,
        constraint: usize,
        tests: usize,
    },
    FileLength,
    WrongKind(usize),
    WrongValue(usize),
    NoSuchTap,
    NoPair,
    ClaimBatches,
    LongElement(usize),
    SameEdition,
}

// Which place is told with a number: none, an index, or a row with its constraint and the tests up to it.
#[derive(Clone, Copy)]
pub enum Place {
    Nowhere,
    Index(usize),
    Test {
        row: usize,
        constraint: usize,
        tests: usize,
    },
}

// What is told of a refusal.
#[derive(Clone, Copy)]
pub struct Particulars {
    pub number: usize,
    pub place: Place,
}

// A number alone, and a number with an index.
fn alone(number: usize) -> Particulars
    ensures { result ≡ alone number }
{
    Particulars {
        number,
        place: Place::Nowhere,
    }
}

fn indexed(number: usize, index: usize) -> Particulars
    ensures { result ≡ indexed number index }
{
    Particulars {
        number,
        place: Place::Index(index),
    }
}

// The one list of numbers: what is printed and what is returned to other languages is made from it.
pub fn told(refusal: Refusal) -> Particulars
    ensures { result ≡ told refusal }
{
    match refusal {
        Refusal::TableLength => alone(1),
        Refusal::TableWord(i) => indexed(2, i),
        Refusal::NoInverse => alone(3),
        Refusal::WrongInverse(i) => indexed(4, i),
        Refusal::TapLength => alone(5),
        Refusal::TapWord(i) => indexed(6, i),
        Refusal::TraceLength => alone(7),
        Refusal::DestinationLength => alone(8),
        Refusal::ClaimWord(i) => indexed(9, i),
        Refusal::TraceWord(i) => indexed(10, i),
        Refusal::Constraint {
            row,
            constraint,
            tests,
        } => Particulars {
            number: 11,
            place: Place::Test {
                row: row.0,
                constraint,
                tests,
            },
        },
        Refusal::FileLength => alone(12),
        Refusal::WrongKind(i) => indexed(13, i),
        Refusal::WrongValue(i) => indexed(14, i),
        Refusal::NoSuchTap => alone(15),
        Refusal::NoPair => alone(16),
        Refusal::ClaimBatches => alone(17),
        Refusal::LongElement(i) => indexed(18, i),
        Refusal::SameEdition => alone(19),
    }
}
