// The inverse of a 12 × 12 matrix, by elimination on 12 rows of 24 words: the matrix with the identity beside it.
#![tactic(auto)]

ghost use Rattle.std.specs.Prelude.{◌≡◌, ◌+◌, ◌/◌, ◌%◌, ◌<◌, length, MatchOption};
ghost use Rattle.field.specs.Field.{neg};
ghost use Rattle.field_words.specs.Words.{AllCanonical};
ghost use Rattle.numbers.specs.Numbers.{width};
ghost use Rattle.matrix.specs.Matrix.{matrix_words, entry};
ghost use Rattle.matrix_inverse.specs.Inversion.{Inverts};
ghost use Rattle.matrix_inverse.specs.EliminationHelpers.{double_width, double_words, at, beside, started, right_half};
ghost use Rattle.matrix_inverse.specs.EliminationHelpers.{Working, RowSet, scaled_row};
ghost use Rattle.matrix_inverse.specs.EliminationHelpers.{added_row, Reduced, Reduces, Pivot, NoPivot, Stuck};

use field_elements::Fp;
use matrix::MATRIX_WORDS;
use numbers::WIDTH;
use std::array;

// The matrix with the identity beside it: the words of a row, and of all rows.
const DOUBLE_WIDTH: usize = 2 * WIDTH;

const DOUBLE_WORDS: usize = 2 * MATRIX_WORDS;

// Row r times c, which is brought into Montgomery's form once for the row. The quotient is taken from a word of the row
// and not from c, since the compiler must not see through it.
fn scale(w: &mut [u64; DOUBLE_WORDS], r: usize, c: Fp)
    requires { (r < width) × Working w.old }
    ensures { RowSet w.old w.new r double_width (scaled_row w.old r c.word) }
{
    let q = field_montgomery::quotient(w[DOUBLE_WIDTH * r]);
    let factor = field_montgomery::enter(c.word, q);
    for x in &mut w[DOUBLE_WIDTH * r..DOUBLE_WIDTH * (r + 1)] {
        *x = field_montgomery::times(*x, factor, q);
    }
}

// Row r plus c times row j, in the same way: c is a constant in `lift`.
fn add_row(w: &mut [u64; DOUBLE_WORDS], r: usize, j: usize, c: Fp)
    requires { (r < width) × (j < width) × (r ≡ j → ⊥) × Working w.old }
    ensures { RowSet w.old w.new r double_width (added_row w.old r j c.word) }
{
    let q = field_montgomery::quotient(w[DOUBLE_WIDTH * j]);
    let factor = field_montgomery::enter(c.word, q);
    // Two rows of one array: an index names both.
    for l in 0..DOUBLE_WIDTH {
        let t = DOUBLE_WIDTH * r + l;
        let part = field_montgomery::times(w[DOUBLE_WIDTH * j + l], factor, q);
        w[t] = Fp::of(w[t]).add(Fp::of(part)).word;
    }
}

// The first row from j on that has no 0 in column j.
fn pivot(w: &[u64; DOUBLE_WORDS], j: usize) -> Option<usize>
    requires { j < width }
    ensures { MatchOption result (NoPivot w.now j) (λ r. Pivot w.now j r) }
{
    (j..WIDTH).find(|&r| w[DOUBLE_WIDTH * r + j] != 0)
}

// Sees to it that row j has no 0 in column j, by adding the pivot's row to it: rows need not be swapped.
fn lift(w: &mut [u64; DOUBLE_WORDS], j: usize, r: usize)
    requires { (j < width) × Reduced w.old j × Pivot w.old j r }
    ensures { Reduces w.old w.new j × (at w.new j j ≡ 0 → ⊥) }
{
    if j != r {
        add_row(w, j, r, Fp::ONE);
    }
}

// Divides row j by its word in column j.
fn divide(w: &mut [u64; DOUBLE_WORDS], j: usize)
    requires { (j < width) × Reduced w.old j × (at w.old j j ≡ 0 → ⊥) }
    ensures { Reduces w.old w.new j × (at w.new j j ≡ 1) }
{
    let c = Fp::of(w[DOUBLE_WIDTH * j + j]).inverse();
    scale(w, j, c);
}

// Takes the multiple of row j off row i that makes its word in column j 0.
fn clear_word(w: &mut [u64; DOUBLE_WORDS], i: usize, j: usize)
    requires { (i < width) × (j < width) × (i ≡ j → ⊥) × Working w.old }
    ensures { RowSet w.old w.new i double_width
        (added_row w.old i j (neg (at w.old i j))) }
{
    let c = Fp::of(w[DOUBLE_WIDTH * i + j]).neg();
    add_row(w, i, j, c);
}

// Clears column j but for row j.
fn clear(w: &mut [u64; DOUBLE_WORDS], j: usize)
    requires { (j < width) × Reduced w.old j × (at w.old j j ≡ 1) }
    ensures { Reduces w.old w.new (j + 1) }
{
    // Each turn reads row j of the same array: an index names the row.
    for i in 0..WIDTH {
        if i != j {
            clear_word(w, i, j);
        }
    }
}

// Makes column j that of the identity, where it has a pivot.
fn step(w: &mut [u64; DOUBLE_WORDS], j: usize) -> Option<()>
    requires { (j < width) × Reduced w.old j }
    ensures { MatchOption result (NoPivot w.old j) (λ _. Reduces w.old w.new (j + 1)) }
{
    let r = pivot(w, j)?;
    lift(w, j, r);
    divide(w, j);
    clear(w, j);
    Some(())
}

// Makes the left half the identity, unless a column has no pivot.
fn eliminate(w: &mut [u64; DOUBLE_WORDS]) -> Option<()>
    requires { Working w.old }
    ensures { MatchOption result (Stuck w.old) (λ _. Reduces w.old w.new width) }
{
    // A column is no slice of the rows: an index names it.
    for j in 0..WIDTH {
        step(w, j)?;
    }
    Some(())
}

// Word t of the rows at the start.
fn start_word(m: &[u64], t: usize) -> u64
    requires { (length m.now ≡ matrix_words) × (t < double_words) }
    ensures { result ≡ beside width (entry m.now) (t / double_width) (t % double_width) }
{
    let i = t / DOUBLE_WIDTH;
    let l = t % DOUBLE_WIDTH;
    if l < WIDTH {
        m[WIDTH * i + l]
    } else {
        u64::from(i == l - WIDTH)
    }
}

// The rows at the start: m, and the identity beside it.
fn start(m: &[u64]) -> [u64; DOUBLE_WORDS]
    requires { length m.now ≡ matrix_words }
    ensures { result ≡ started m.now }
{
    array::from_fn(|t| start_word(m, t))
}

// Columns 12 to 23, which are the inverse in the end.
fn right_half(w: &[u64; DOUBLE_WORDS]) -> [u64; MATRIX_WORDS]
    ensures { result ≡ right_half w.now }
{
    array::from_fn(|t| w[DOUBLE_WIDTH * (t / WIDTH) + (WIDTH + t % WIDTH)])
}

// The inverse of m, where it has one.
pub fn invert(m: &[u64]) -> Option<[u64; MATRIX_WORDS]>
    requires { (length m.now ≡ matrix_words) × AllCanonical m.now }
    ensures { Inverts m.now result }
{
    let mut w = start(m);
    eliminate(&mut w)?;
    Some(right_half(&w))
}
