// The table and its test (document 01, "The table").
#![tactic(auto)]

ghost use Rattle.std.specs.Prelude.{◌≡◌, ◌/◌, ◌%◌, ◌<◌, MatchOption, eqb, length};
ghost use Rattle.lists.specs.Lists.{choose, cell, tab};
ghost use Rattle.field.specs.Field.{Canonical};
ghost use Rattle.field.specs.MontgomeryHelpers.{unit_square};
ghost use Rattle.field_words.specs.Words.{AllCanonical};
ghost use Rattle.numbers.specs.Numbers.{width};
ghost use Rattle.matrix.specs.Matrix.{matrix_words, entry, product};
ghost use Rattle.matrix_ready.specs.MixingHelpers.{ready_words, IsReady, ready_entry};
ghost use Rattle.table.specs.Table.{table_words, matrix_of, inverse_of};
ghost use Rattle.table.specs.Table.{constant, initial_constant, first_step_constant, second_step_constant};
ghost use Rattle.table.specs.Table.{first_unlike, table_test, IsTable};
ghost use Rattle.table.specs.ReadyHelpers.{ready_matrix, unlike_in_row, ready_left};

use field_words::Cells;
use matrix::MATRIX_WORDS;
use matrix_ready::READY_WORDS;
use numbers::WIDTH;
use refusals::Refusal;

pub mod ready;

pub use ready::Ready;

// A raw table: M, then K_0 to K_20, twelve words each.
pub const RAW_WORDS: usize = MATRIX_WORDS + 21 * WIDTH;

// A prepared table: M, its inverse, then K_0 to K_20.
pub const WORDS: usize = RAW_WORDS + MATRIX_WORDS;

// Where K_0 stands in a prepared table.
const CONSTANTS: usize = 2 * MATRIX_WORDS;

// M. Where the parts of a prepared table stand, only Prepare and the functions down to `second_step_constant` know.
pub fn matrix(table: &[u64]) -> &[u64]
    requires { length table.now ≡ table_words }
    ensures { result.now ≡ matrix_of table.now }
{
    &table[0..MATRIX_WORDS]
}

// The inverse of M.
pub fn inverse(table: &[u64]) -> &[u64]
    requires { length table.now ≡ table_words }
    ensures { result.now ≡ inverse_of table.now }
{
    &table[MATRIX_WORDS..CONSTANTS]
}

// K_n.
fn constant(table: &[u64], n: usize) -> &[u64]
    requires { IsTable table.now × (n < 21) }
    ensures { (result.now ≡ constant table.now n) × (length result.now ≡ width) × AllCanonical result.now }
{
    let start = CONSTANTS + WIDTH * n;
    let end = start + WIDTH;
    &table[start..end]
}

// K_0, which is added before round 0.
pub fn initial_constant(table: &[u64]) -> &[u64]
    requires { IsTable table.now }
    ensures { (result.now ≡ initial_constant table.now) × (length result.now ≡ width) × AllCanonical result.now }
{
    constant(table, 0)
}

// The constant that the first step of the round adds.
pub fn first_step_constant(table: &[u64], round: usize) -> &[u64]
    requires { IsTable table.now × (round < 10) }
    ensures { (result.now ≡ first_step_constant table.now round) × (length result.now ≡ width)
        × AllCanonical result.now }
{
    constant(table, 2 * round + 1)
}

// The constant that its second step adds.
pub fn second_step_constant(table: &[u64], round: usize) -> &[u64]
    requires { IsTable table.now × (round < 10) }
    ensures { (result.now ≡ second_step_constant table.now round) × (length result.now ≡ width)
        × AllCanonical result.now }
{
    constant(table, 2 * round + 2)
}

// Column k of a 12 × 12 matrix.
fn column(n: &[u64], k: usize) -> [u64; WIDTH]
    requires { (length n.now ≡ matrix_words) × (k < width) }
    ensures { result ≡ tab width (λ j. entry n.now j k) }
{
    let mut out = [0u64; WIDTH];
    for j in 0..WIDTH {
        out[j] = n[WIDTH * j + k];
    }
    out
}

// 2^192 mod p: 2^64 for the division when M is made ready, and 2^128 for cells that come divided by it.
const SCALE: u64 = 2148101911894228676;

// Makes M ready, times 2^128.
fn make_ready(table: &[u64], ready: &mut [u64; READY_WORDS])
    requires { (length table.now ≡ table_words) × AllCanonical table.now × (length ready.old ≡ ready_words) }
    ensures { ready.new ≡ ready_matrix table.now }
{
    matrix_ready::make_ready(matrix(table), SCALE, ready);
}

// The matrix that was made ready times n, column by column: cell (i, k) stands at 12 * k + i.
fn product_columns(ready: &[u64], n: &[u64]) -> [u64; MATRIX_WORDS]
    requires { IsReady ready.now × (length n.now ≡ matrix_words) × AllCanonical n.now }
    ensures { result ≡ tab matrix_words
        (λ t. product width (ready_entry ready.now) (entry n.now) (t % width) (t / width)) }
{
    let mut out = [0u64; MATRIX_WORDS];
    for k in 0..WIDTH {
        let column = Cells {
            words: column(n, k),
        };
        let x = matrix_ready::mix(ready, column).words;
        for i in 0..WIDTH {
            out[WIDTH * k + i] = x[i];
        }
    }
    out
}

// The identity in row i and column k, times 2^128.
fn identity(i: usize, k: usize) -> u64
    ensures { result ≡ choose (eqb i k) unit_square 0 }
{
    if i == k { field_montgomery::SQUARE } else { 0 }
}

// The first column in which a row of the product is unlike the identity's: both times 2^128.
fn unlike_in_row(product: &[u64; MATRIX_WORDS], row: usize) -> Option<usize>
    requires { (length product.now ≡ matrix_words) × (row < width) }
    ensures { MatchOption result (unlike_in_row product.now row ≡ width)
        (λ k. (k ≡ unlike_in_row product.now row) × (k < width)) }
{
    (0..WIDTH).find(|&k| product[WIDTH * k + row] != identity(row, k))
}

// The first cell, row by row, in which M times the stored inverse is unlike the identity.
fn first_unlike(ready: &[u64], table: &[u64]) -> Option<usize>
    requires { (length table.now ≡ table_words) × AllCanonical table.now × (ready.now ≡ ready_matrix table.now) }
    ensures { MatchOption result (first_unlike table.now ≡ matrix_words)
        (λ n. (n ≡ first_unlike table.now) × (n < matrix_words)) }
{
    let product = product_columns(ready, inverse(table));
    for row in 0..WIDTH {
        if let Some(k) = unlike_in_row(&product, row) {
            return Some(WIDTH * row + k);
        }
    }
    None
}

// The table test, with which every operation but Prepare begins: 1, 2, 4. It multiplies M made ready by the stored
// inverse, and leaves it so, for whoever goes on with an accepted table.
pub fn test_and_ready(table: &[u64], ready: &mut [u64; READY_WORDS]) -> Result<(), Refusal>
    requires { length ready.old ≡ ready_words }
    ensures { (result ≡ table_test table.now)
        × (ready.new ≡ ready_left table.now ready.old) }
{
    if table.len() != WORDS {
        return Err(Refusal::TableLength);
    }
    if let Some(bad) = field_words::first_bad(table) {
        return Err(Refusal::TableWord(bad));
    }
    make_ready(table, ready);
    if let Some(cell) = first_unlike(ready, table) {
        return Err(Refusal::WrongInverse(cell));
    }
    Ok(())
}

// The table test alone.
pub fn test(table: &[u64]) -> Result<(), Refusal>
    ensures { result ≡ table_test table.now }
{
    let mut room = [0u64; READY_WORDS];
    test_and_ready(table, &mut room)
}
