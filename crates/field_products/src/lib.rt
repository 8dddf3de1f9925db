// Twelve products at a time, in Montgomery's form. The compiler makes vector code of both loops (tests/vectors.sh).
#![tactic(auto)]

ghost use Rattle.std.specs.Prelude.{◌≡◌};
ghost use Rattle.field.specs.MontgomeryHelpers.{quotient};
ghost use Rattle.field_products.specs.CellHelpers.{word_products};

use field_words::Cells;

// Each cell of a times that of b.
pub fn multiply(a: &mut Cells, b: Cells, q: u32)
    requires { q ≡ quotient }
    ensures { a.new.words ≡ word_products a.old.words b.words }
{
    // `iter_mut().zip(b.words)` was no vector code.
    for (j, x) in a.words.iter_mut().enumerate() {
        *x = field_montgomery::times(*x, b.words[j], q);
    }
}

// Each cell of a times itself.
pub fn square(a: &mut Cells, q: u32)
    requires { q ≡ quotient }
    ensures { a.new.words ≡ word_products a.old.words a.old.words }
{
    for x in a.words.iter_mut() {
        *x = field_montgomery::times(*x, *x, q);
    }
}
