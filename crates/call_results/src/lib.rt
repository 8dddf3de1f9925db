// What is handed over to another language: an answer in one returned number (specs/Code.antt), and words in a destination
// (specs/HandsOver.antt).
#![tactic(auto)]

ghost use Rattle.std.specs.Prelude.{◌≡◌, length};
ghost use Rattle.call_results.specs.Code.{code, refusal_code, answer_code, words_code, tests_code};
ghost use Rattle.call_results.specs.HandsOver.{HandsOver};

use refusals::{Particulars, Place, Refusal};

// The parts of a code: 2^6 numbers and 2^6 constraints, 2^24 rows, 2^28 indices or tests, each above the ones before.
const NUMBERS: u64 = 64;

const CONSTRAINTS: u64 = 64;

const ROWS: u64 = 16777216;

const VALUES: u64 = 268435456;

fn code(number: u64, constraint: u64, row: u64, value: u64) -> u64
    ensures { result ≡ code number constraint row value }
{
    number % NUMBERS
        + NUMBERS * (constraint % CONSTRAINTS)
        + NUMBERS * CONSTRAINTS * (row % ROWS)
        + NUMBERS * CONSTRAINTS * ROWS * (value % VALUES)
}

// The code of a refusal: its number, and the place that is returned with it.
pub fn refusal_code(refusal: Refusal) -> u64
    ensures { result ≡ refusal_code refusal }
{
    let Particulars { number, place } = refusals::told(refusal);
    match place {
        Place::Nowhere => code(number as u64, 0, 0, 0),
        Place::Index(index) => code(number as u64, 0, 0, index as u64),
        Place::Test {
            row,
            constraint,
            tests,
        } => code(number as u64, constraint as u64, row as u64, tests as u64),
    }
}

// The code of an answer: 0 for acceptance, with the tests where the operation counts them.
pub fn answer_code(answer: Result<(), Refusal>) -> u64
    ensures { result ≡ answer_code answer }
{
    match answer {
        Ok(()) => 0,
        Err(r) => refusal_code(r),
    }
}

pub fn tests_code(answer: Result<usize, Refusal>) -> u64
    ensures { result ≡ tests_code answer }
{
    match answer {
        Ok(tests) => code(0, 0, 0, tests as u64),
        Err(r) => refusal_code(r),
    }
}

pub fn words_code<const N: usize>(answer: Result<[u64; N], Refusal>) -> u64
    ensures { result ≡ words_code answer.entry }
{
    match answer {
        Ok(_) => 0,
        Err(r) => refusal_code(r),
    }
}

// The code of the answer; the words of an acceptance are written to the output.
pub fn hand_over<const N: usize>(answer: Result<[u64; N], Refusal>, output: &mut [u64]) -> u64
    requires { length output.old ≡ N }
    ensures { HandsOver answer.entry result output.old output.new }
{
    match answer {
        Ok(words) => {
            output.copy_from_slice(&words);
            0
        }
        Err(r) => refusal_code(r),
    }
}
