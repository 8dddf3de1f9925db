// The second step of a round, and the first step undone, over matrices made ready once a call (document 01, "The 52
// constraints"). Cubes come out divided by 2^128, as two products in Montgomery's form leave them; the matrices'
// scales make up for that.
#![tactic(auto)]

ghost use Rattle.std.specs.Prelude.{◌≡◌, ◌<◌, ◌≤◌, length};
ghost use Rattle.field_words.specs.Words.{AllCanonical, CanonicalTo};
ghost use Rattle.numbers.specs.Numbers.{width};
ghost use Rattle.matrix_ready.specs.MixingHelpers.{ready_words};
ghost use Rattle.table.specs.Table.{IsTable};
ghost use Rattle.hash.specs.Hash.{second_step};
ghost use Rattle.check_constraints.specs.Constraints.{minus, back_step};
ghost use Rattle.check_steps.specs.StepHelpers.{back_ready, columns};

use field_elements::Fp;
use field_words::Cells;
use matrix_ready::READY_WORDS;
use numbers::WIDTH;
use table::Ready;

pub mod back;

pub use back::{BackReady, Steps};

// The cube root of 2^128, times 2^64, mod p.
const BACK: u64 = 655732205038664229;

// The cells less a constant of the table, cell by cell.
pub fn minus(s: [u64; WIDTH], constant: &[u64]) -> [u64; WIDTH]
    requires { CanonicalTo width s × (length constant.now ≡ width) × AllCanonical constant.now }
    ensures { (result ≡ minus s constant.now) × CanonicalTo width result }
{
    let mut out = [0u64; WIDTH];
    for (j, k) in constant.iter().enumerate() {
        out[j] = Fp::of(s[j]).sub(Fp::of(*k)).word;
    }
    out
}

// Makes the inverse of M ready for undoing the first steps.
pub fn make_inverse_ready(table: &[u64], inverse: &mut [u64; READY_WORDS])
    requires { IsTable table.now × (length inverse.old ≡ ready_words) }
    ensures { inverse.new ≡ back_ready table.now }
{
    matrix_ready::make_ready(table::inverse(table), BACK, inverse);
}

// The first `count` columns of the second step of the round: the cells cubed, times M, plus its constant.
pub fn forward_step(ready: Ready, round: usize, s: [u64; WIDTH], count: usize) -> [u64; WIDTH]
    requires { (round < 10) × CanonicalTo width s × (count ≤ width) }
    ensures { result ≡ columns count (second_step ready.entry.table.now round s) }
{
    let cells = Cells { words: s };
    let mixed = matrix_ready::mix(ready.matrix, hash::montgomery_cubes(cells));
    let constant = table::second_step_constant(ready.table, round);
    let mut out = [0u64; WIDTH];
    for (j, k) in constant[..count].iter().enumerate() {
        out[j] = Fp::of(mixed.words[j]).add(Fp::of(*k)).word;
    }
    out
}

// The first step of the round undone: the cells less its constant, times the inverse of M, then cubed.
pub fn back_step(back: BackReady, round: usize, s: [u64; WIDTH]) -> [u64; WIDTH]
    requires { (round < 10) × CanonicalTo width s }
    ensures { result ≡ back_step back.entry.table.now round s }
{
    let less = Cells {
        words: minus(s, table::first_step_constant(back.table, round)),
    };
    hash::montgomery_cubes(matrix_ready::mix(back.inverse, less)).words
}
