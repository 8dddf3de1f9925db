// Twelve cube roots at a time, by powers in Montgomery's form.
#![tactic(auto)]

ghost use Rattle.std.specs.Prelude.{◌≡◌};
ghost use Rattle.lists.specs.Lists.{cell, tab};
ghost use Rattle.field.specs.Field.{Canonical, mul, third, root};
ghost use Rattle.field.specs.MontgomeryHelpers.{quotient, divided};
ghost use Rattle.numbers.specs.Numbers.{width};
ghost use Rattle.field_roots.specs.PowerHelpers.{elements, products, powers};

use field_words::Cells;
use numbers::WIDTH;

// Each cell of acc times that of x raised to e. The exponent is halved at each call, and after its last bit nothing is
// squared; the twelve cells lie in place and nothing is done after the call, so that the compiler makes a loop of it.
fn powers_times(acc: &mut Cells, x: &mut Cells, e: u64, q: u32)
    requires { q ≡ quotient }
    ensures { elements acc.new.words ≡ products (elements acc.old.words) (powers (elements x.old.words) e) }
{
    if e == 0 {
        return;
    }
    if e % 2 == 1 {
        field_products::multiply(acc, *x, q);
    }
    if e == 1 {
        return;
    }
    field_products::square(x, q);
    powers_times(acc, x, e / 2, q);
}

// Each cell of by times that of base raised to e: where e is a power of two, the exponents' bits joined, those of base
// first.
fn joined(base: Cells, e: u64, by: Cells, q: u32) -> Cells
    requires { q ≡ quotient }
    ensures { elements result.words ≡ products (elements by.words) (powers (elements base.words) e) }
{
    let mut x = base;
    let mut acc = by;
    powers_times(&mut acc, &mut x, e, q);
    acc
}

// Each cell raised to (2p - 1) / 3, whose bits are 01 over and over but for two places: two, four, eight and twelve of
// these pairs are the exponents 5, 85, 21845 and 5592405. So 9 products do, where one call of the power takes 31.
fn third_powers(x: Cells, q: u32) -> Cells
    requires { q ≡ quotient }
    ensures { elements result.words ≡ powers (elements x.words) third }
{
    let two = joined(x, 4, x, q);
    let four = joined(two, 16, two, q);
    let eight = joined(four, 256, four, q);
    let twelve = joined(eight, 256, four, q);
    let upper = joined(twelve, 2, x, q);
    let middle = joined(upper, 262144, eight, q);
    let lower = joined(middle, 65536, eight, q);
    let last = joined(lower, 4, x, q);
    joined(last, 2, x, q)
}

// The roots of the elements that the cells stand for, as words of Montgomery's form, times the factor; the product with
// it leaves the form.
pub fn scaled_roots(s: Cells, factor: u64) -> Cells
    requires { Canonical factor }
    ensures { result.words ≡ tab width (λ j. mul factor (root (divided (cell s.words j)))) }
{
    let q = field_montgomery::quotient(s.words[0]);
    let mut acc = third_powers(s, q);
    let factors = Cells {
        words: [factor; WIDTH],
    };
    field_products::multiply(&mut acc, factors, q);
    acc
}
