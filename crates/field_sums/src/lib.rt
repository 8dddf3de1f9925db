// Sums of twelve products, gathered in one word. A term is added and the sum divided by 2^32; what this takes from a
// term is given to it beforehand, as its weight. A step takes two terms, and after it there is one word below p.
#![tactic(auto)]

ghost use Rattle.std.specs.Prelude.{◌≡◌, ◌*◌, ◌%◌, ◌^◌};
ghost use Rattle.lists.specs.Lists.{cell, tab};
ghost use Rattle.field.specs.Field.{P, Canonical};
ghost use Rattle.field.specs.Gathering.{gathered};
ghost use Rattle.field.specs.MontgomeryHelpers.{quotient};
ghost use Rattle.numbers.specs.Numbers.{width};
ghost use Rattle.field_sums.specs.Sums.{weight};
ghost use Rattle.field_sums.specs.TermHelpers.{Term, Loose, loose_word};

use field_elements::Fp;
use field_words::Cells;
use numbers::WIDTH;

// 2^31, at which a factor below p is split into digits.
const SPLIT: u64 = 2147483648;

// 2^95 mod p: a product with it in Montgomery's form is one with 2^31.
const SHIFT: u64 = 54958401520256;

// 2^(32 (12 - j) + 64) mod p for the term j: a product with it in Montgomery's form is one with the weight.
const WEIGHTS: [u64; WIDTH] = [
    1753051999233102296,
    1521519387365323426,
    1632284084371951915,
    22392494501114462,
    212805760098606723,
    2082154247776085883,
    700181197168064166,
    435856507012335135,
    2148101911894228676,
    506268118997512191,
    2288261904184696897,
    109916803040512,
];

// Each cell times the weight of its term.
pub fn weighted(s: Cells, q: u32) -> Cells
    requires { q ≡ quotient }
    ensures { result.words ≡ tab width (λ j. weight j * cell s.words j % P) }
{
    let mut out = Cells { words: WEIGHTS };
    field_products::multiply(&mut out, s, q);
    out
}

// Each cell times 2^31.
pub fn raised(s: Cells, q: u32) -> Cells
    requires { q ≡ quotient }
    ensures { result.words ≡ tab width (λ j. 2 ^ 31 * cell s.words j % P) }
{
    let mut out = Cells {
        words: [SHIFT; WIDTH],
    };
    field_products::multiply(&mut out, s, q);
    out
}

// (word + low x) / 2^32 but for a multiple of p, where high is 2^31 low: the first of the two terms of a step.
pub fn loose_term(word: u64, low: u64, high: u64, x: u64, q: u32) -> u64
    requires { Term word low high x × (q ≡ quotient) }
    ensures { (result ≡ loose_word word low x) × Loose result }
{
    let x0 = x % SPLIT;
    let x1 = x / SPLIT % field_montgomery::HALF;
    let t = word + low % field_montgomery::HALF * x0 + high % field_montgomery::HALF * x1;
    let more = low / field_montgomery::HALF * x0 + high / field_montgomery::HALF * x1;
    t / field_montgomery::HALF + more + Fp::P - t % field_montgomery::HALF * (q as u64)
}

// (word + low x) / 2^32: the second term of a step.
pub fn term(word: u64, low: u64, high: u64, x: u64, q: u32) -> u64
    requires { Term word low high x × (q ≡ quotient) }
    ensures { (result ≡ gathered word low x) × Canonical result }
{
    let loose = loose_term(word, low, high, x, q);
    field_montgomery::settle(std::num::wrapping_sub_u64(loose, Fp::P))
}
