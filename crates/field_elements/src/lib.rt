// The elements of the field and their operations (document 01, "The field"). The product of two is gathered from three
// digits of the second, the top one first, with one word below p after each (document 02, U2); powers are computed in
// Montgomery's form.
#![tactic(auto)]

ghost use Rattle.std.specs.Prelude.{◌≡◌, ◌^◌, ◌<◌, ltb};
ghost use Rattle.field.specs.Field.{P, Canonical, add, sub, neg, mul, square, power, root, inverse};
ghost use Rattle.field.specs.Gathering.{appended};

// An element, by its canonical word.
#[derive(Clone, Copy)]
pub struct Fp {
    pub word: u64,
    pub ghost canonical: { Canonical word },
}

impl Fp {
    pub const P: u64 = field::P;

    pub const ZERO: Fp = Fp { word: 0 };

    pub const ONE: Fp = Fp { word: 1 };

    // (2p - 1) / 3, the exponent of the cube root
    pub const THIRD: u64 = 1537228730075359915;

    pub fn is_canonical(word: u64) -> bool
        ensures { result ≡ ltb word P }
    {
        word < Fp::P
    }

    pub fn of(word: u64) -> Fp
        requires { Canonical word }
        ensures { result.word ≡ word }
    {
        Fp { word }
    }

    pub fn add(self, other: Fp) -> Fp
        ensures { result.word ≡ add self.word other.word }
    {
        let sum = self.word + other.word;
        let word = if sum < Fp::P { sum } else { sum - Fp::P };
        Fp { word }
    }

    pub fn sub(self, other: Fp) -> Fp
        ensures { result.word ≡ sub self.word other.word }
    {
        let a = self.word;
        let b = other.word;
        let word = if b <= a { a - b } else { a + Fp::P - b };
        Fp { word }
    }

    pub fn neg(self) -> Fp
        ensures { result.word ≡ neg self.word }
    {
        let a = self.word;
        let word = if a == 0 { 0 } else { Fp::P - a };
        Fp { word }
    }

    // By the digits of the other from the top: after each there is one word below p, self times the digits so far.
    pub fn mul(self, other: Fp) -> Fp
        ensures { result.word ≡ mul self.word other.word }
    {
        let b = other.word;
        let first = append(Fp::ZERO, self, b / TWO_DIGITS);
        let second = append(first, self, b / DIGIT % DIGIT);
        append(second, self, b % DIGIT)
    }

    pub fn square(self) -> Fp
        ensures { result.word ≡ square self.word }
    {
        self.mul(self)
    }

    pub fn pow(self, exponent: u64) -> Fp
        ensures { result.word ≡ power self.word exponent }
    {
        let q = field_montgomery::quotient(self.word);
        let v = field_montgomery::enter(self.word, q);
        let w = field_montgomery::power_times(field_montgomery::ONE, v, exponent, q);
        Fp {
            word: field_montgomery::leave(w, q),
        }
    }

    pub fn root(self) -> Fp
        ensures { result.word ≡ root self.word }
    {
        self.pow(Fp::THIRD)
    }

    // The inverse of an element that is not 0, as x^(p - 2).
    pub fn inverse(self) -> Fp
        ensures { result.word ≡ inverse self.word }
    {
        self.pow(Fp::P - 2)
    }
}

// The digits in which a factor is gathered, of 21 bits each: three hold every word below 2^63.
const DIGIT: u64 = 2097152;

const TWO_DIGITS: u64 = DIGIT * DIGIT;

// 2^32 in digits: by so much the upper half of a word counts more.
const UPPER: u64 = 2048;

// 2^61 in digits: what reaches it is folded.
const TOP: u64 = 1099511627776;

// 20 * 2^32 + 1, which is p - 2^61: 2^61 is its negative in the field.
const FOLD: u64 = 85899345921;

// A step of the product: the word moved up by a digit, plus a times the next digit.
fn append(word: Fp, a: Fp, digit: u64) -> Fp
    requires { digit < 2 ^ 21 }
    ensures { result.word ≡ appended word.word a.word digit }
{
    let low = a.word % field_montgomery::HALF * digit;
    let upper = a.word / field_montgomery::HALF * digit * UPPER + low / DIGIT + word.word;
    let kept = Fp {
        word: upper % TOP * DIGIT + low % DIGIT,
    };
    let folded = Fp {
        word: upper / TOP * FOLD,
    };
    kept.sub(folded)
}
