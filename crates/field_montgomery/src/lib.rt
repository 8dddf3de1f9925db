// Montgomery's form, by which powers and cubes are computed, matrices made ready and rows eliminated: a word v stands
// for the element v / 2^64. A product is gathered from the two digits of 32 bits of the second factor, the lower one
// first, with one word below p after each (document 02, U2). A step divides by 2^32, which is cheap, since p - 1 is a
// multiple of it; so do the steps of sums of products, which are not in this form (`field_sums`).
#![tactic(auto)]

ghost use Rattle.std.specs.Prelude.{◌≡◌, ◌+◌, ◌*◌, ◌/◌, ◌%◌, ◌^◌, ◌<◌};
ghost use Rattle.field.specs.Field.{P, Canonical, mul, power};
ghost use Rattle.field.specs.Gathering.{lowered, gathered};
ghost use Rattle.field.specs.MontgomeryHelpers.{divided, half, quotient, times_word, enter_word};

use field::P;

// 2^64 mod p, which stands for 1
pub const ONE: u64 = 2305842407918272505;

// 2^128 mod p
pub const SQUARE: u64 = 2288261904184696897;

// 2^32, the size of a digit
pub const HALF: u64 = 4294967296;

// (p - 1) / 2^32
const QUOTIENT: u32 = 536870932;

// 2^62: a word at least as large as it wrapped below 0, and is then at least three times as large
const SIGN: u64 = 4611686018427387904;

// The quotient for the functions below, from any canonical word. In this form the compiler does not take it for a
// constant: it would then turn the difference of `step` into a sum with the negated product, which takes more than 32
// bits, and no vector multiplication.
pub fn quotient(x: u64) -> u32
    requires { Canonical x }
    ensures { result ≡ quotient }
{
    QUOTIENT >> (x / SIGN)
}

// A difference, at least -p and below p, that was taken modulo 2^64, in the field: x, plus p where x wrapped below 0.
// Its upper two bits are then set, and no canonical word has one of them. In this form loops become vector code.
pub fn settle(x: u64) -> u64
    requires { (x + P) % 2 ^ 64 < 2 * P }
    ensures { (result ≡ (x + P) % 2 ^ 64 % P) × Canonical result }
{
    std::num::wrapping_add_u64(x, std::num::wrapping_sub_u64(0, x / SIGN) & P)
}

// (t + 2^32 more) / 2^32.
fn step(t: u64, more: u64, q: u32) -> u64
    requires { (t / half + more < P) × (q ≡ quotient) }
    ensures { (result ≡ lowered (t + half * more)) × Canonical result }
{
    settle(std::num::wrapping_sub_u64(t / HALF + more, t % HALF * (q as u64)))
}

// A step of the product, (word + a digit) / 2^32: one digit more, from below.
fn gather(word: u64, a: u64, digit: u64, q: u32) -> u64
    requires { Canonical word × Canonical a × (half * digit + word < 2 ^ 64) × (q ≡ quotient) }
    ensures { (result ≡ gathered word a digit) × Canonical result }
{
    step(a % HALF * digit + word, a / HALF * digit, q)
}

// The product of the elements that a and b stand for: a b / 2^64. After each step there is one word below p.
pub fn times(a: u64, b: u64, q: u32) -> u64
    requires { Canonical a × Canonical b × (q ≡ quotient) }
    ensures { (result ≡ times_word a b) × (divided result ≡ mul (divided a) (divided b)) × Canonical result }
{
    let first = gather(0, a, b % HALF, q);
    gather(first, a, b / HALF, q)
}

// The word that stands for the element x.
pub fn enter(x: u64, q: u32) -> u64
    requires { Canonical x × (q ≡ quotient) }
    ensures { (result ≡ enter_word x) × (divided result ≡ x) × Canonical result }
{
    times(x, SQUARE, q)
}

// The element that v stands for.
pub fn leave(v: u64, q: u32) -> u64
    requires { Canonical v × (q ≡ quotient) }
    ensures { (result ≡ divided v) × Canonical result }
{
    times(v, 1, q)
}

// acc * x^e in Montgomery's form. The exponent is halved at each call; the accumulator lets the compiler make a loop of
// it.
pub fn power_times(acc: u64, x: u64, e: u64, q: u32) -> u64
    requires { Canonical acc × Canonical x × (q ≡ quotient) }
    ensures { (divided result ≡ mul (divided acc) (power (divided x) e)) × Canonical result }
{
    if e == 0 {
        return acc;
    }
    let square = times(x, x, q);
    if e % 2 == 0 {
        return power_times(acc, square, e / 2, q);
    }
    power_times(times(acc, x, q), square, e / 2, q)
}
