// The test that every lent word is canonical, and twelve that are.
#![tactic(auto)]

ghost use Rattle.std.specs.Prelude.{◌≡◌, MatchOption, true, false};
ghost use Rattle.numbers.specs.Numbers.{width};
ghost use Rattle.field_words.specs.Words.{CanonicalTo, canonical_words, first_bad};

use field_elements::Fp;
use numbers::WIDTH;

// Twelve canonical words: the cells of a state or of a row, or words of Montgomery's form.
#[derive(Clone, Copy)]
pub struct Cells {
    pub words: [u64; WIDTH],
    pub ghost canonical: { CanonicalTo width words },
}

// The lowest index of a word that is not canonical, where there is one.
pub fn first_bad(s: &[u64]) -> Option<usize>
    ensures { MatchOption result (canonical_words s.now ≡ true)
        (λ i. (canonical_words s.now ≡ false) × (i ≡ first_bad s.now)) }
{
    for (i, word) in s.iter().enumerate() {
        if !Fp::is_canonical(*word) {
            return Some(i);
        }
    }
    None
}
