// A matrix made ready, times many columns. It is there by columns, each entry with the weight of its term and with 2^31
// times that, so that a column of cells comes as it is, and a step takes two terms.
#![tactic(auto)]

ghost use Rattle.std.specs.Prelude.{◌≡◌, ◌+◌, ◌*◌, ◌<◌, ◌≤◌, length};
ghost use Rattle.std.proofs.lemmas.List.Edits.{sets};
ghost use Rattle.lists.specs.Lists.{cell, tab};
ghost use Rattle.field.specs.Field.{Canonical};
ghost use Rattle.field.specs.Gathering.{gathered};
ghost use Rattle.field.specs.MontgomeryHelpers.{quotient, times_word};
ghost use Rattle.field_words.specs.Words.{AllCanonical};
ghost use Rattle.numbers.specs.Numbers.{width};
ghost use Rattle.matrix.specs.Matrix.{matrix_words, entry, times_column};
ghost use Rattle.matrix_ready.specs.MixingHelpers.{column_words, ready_words, ready, IsReady, ready_entry};

use field_words::Cells;
use matrix::MATRIX_WORDS;
use numbers::WIDTH;

// The words of a column made ready: twelve entries with their weight, and 2^31 times them.
const COLUMN_WORDS: usize = 2 * WIDTH;

pub const READY_WORDS: usize = 2 * MATRIX_WORDS;

// Column j of m times the factor, divided by 2^64.
fn scaled_column(m: &[u64], j: usize, factor: u64, q: u32) -> Cells
    requires { (length m.now ≡ matrix_words) × AllCanonical m.now × (j < width)
        × Canonical factor × (q ≡ quotient) }
    ensures { result.words ≡ tab width (λ i. times_word (entry m.now i j) factor) }
{
    let words = std::array::from_fn(|i| field_montgomery::times(m[WIDTH * i + j], factor, q));
    Cells { words }
}

// Twelve words from `start` on.
fn store(out: &mut [u64; READY_WORDS], start: usize, words: [u64; WIDTH])
    requires { (length out.old ≡ ready_words) × (start + width ≤ ready_words) }
    ensures { out.new ≡ sets out.old start (tab width (cell words)) }
{
    (&mut out[start..start + WIDTH]).copy_from_slice(&words);
}

// Makes m ready in a room of the caller's, each entry times the scale and divided by 2^64. The room is lent, so that no
// matrix made ready is ever copied.
pub fn make_ready(m: &[u64], scale: u64, out: &mut [u64; READY_WORDS])
    requires { (length m.now ≡ matrix_words) × AllCanonical m.now × Canonical scale
        × (length out.old ≡ ready_words) }
    ensures { out.new ≡ ready m.now scale }
{
    let q = field_montgomery::quotient(m[0]);
    let scales = Cells {
        words: [scale; WIDTH],
    };
    let factors = field_sums::weighted(scales, q);
    for j in 0..WIDTH {
        let low = scaled_column(m, j, factors.words[j], q);
        let high = field_sums::raised(low, q);
        let start = COLUMN_WORDS * j;
        store(out, start, low.words);
        store(out, start + WIDTH, high.words);
    }
}

// A step of row i: its word plus columns j and j + 1 times x and y.
fn row_step(word: u64, ready: &[u64], i: usize, j: usize, x: u64, y: u64, q: u32) -> u64
    requires { Canonical word × IsReady ready.now × (i < width) × (j + 1 < width) × Canonical x × Canonical y
        × (q ≡ quotient) }
    ensures { (result
        ≡ gathered (gathered word (cell ready.now (column_words * j + i)) x)
        (cell ready.now (column_words * (j + 1) + i)) y) × Canonical result }
{
    let start = COLUMN_WORDS * j;
    let next = start + COLUMN_WORDS;
    let between = field_sums::loose_term(word, ready[start + i], ready[start + WIDTH + i], x, q);
    field_sums::term(between, ready[next + i], ready[next + WIDTH + i], y, q)
}

// A step of every row.
fn add_two_columns(words: &mut Cells, ready: &[u64], j: usize, x: u64, y: u64, q: u32)
    requires { IsReady ready.now × (j + 1 < width) × Canonical x × Canonical y × (q ≡ quotient) }
    ensures { words.new.words
        ≡ tab width (λ i. gathered
        (gathered (cell words.old.words i) (cell ready.now (column_words * j + i)) x)
        (cell ready.now (column_words * (j + 1) + i)) y) }
{
    for (i, word) in words.words.iter_mut().enumerate() {
        *word = row_step(*word, ready, i, j, x, y, q);
    }
}

// The matrix that was made ready times s: after each step there is one word below p for each row.
pub fn mix(ready: &[u64], s: Cells) -> Cells
    requires { IsReady ready.now }
    ensures { result.words ≡ tab width (times_column width (ready_entry ready.now) (cell s.words)) }
{
    let q = field_montgomery::quotient(s.words[0]);
    let mut words = Cells {
        words: [0u64; WIDTH],
    };
    for step in 0..WIDTH / 2 {
        let j = 2 * step;
        add_two_columns(&mut words, ready, j, s.words[j], s.words[j + 1], q);
    }
    words
}
