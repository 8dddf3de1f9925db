// Elements of the short edition, as they are written (document 02, U7): one word of kind 3 below 2^30, else the three
// of the full edition. An index counts words of the file, from word 0.
#![tactic(auto)]

ghost use Rattle.std.specs.Prelude.{◌≡◌, [], ◌+◌, ◌*◌, ◌^◌, ◌≤◌, ◌<◌, leb, length};
ghost use Rattle.std.proofs.lemmas.List.Edits.{sets};
ghost use Rattle.lists.specs.Lists.{choose};
ghost use Rattle.field.specs.Field.{P};
ghost use Rattle.board_words.specs.Words.{bytes_of};
ghost use Rattle.board_words.specs.ElementHelpers.{upper_words};
ghost use Rattle.board_short_words.specs.MeasureHelpers.{bad_count};
ghost use Rattle.board_short_words.specs.Short.{is_small, short_words, short_words_of, all_bytes_needed};

use board_words::Word;

// One word holds the elements below this.
const LIMIT: u64 = 1 << Word::PAYLOAD_BITS;

// Whether one word holds the element.
pub fn is_small(element: u64) -> bool
    ensures { result ≡ is_small element }
{
    element < LIMIT
}

// The bits of an element above a payload's, and the most that they can be.
const UPPER_BITS: u32 = 34;

const MOST_UPPER: u64 = (1 << UPPER_BITS) - 1;

// 0 where one word holds the element, else 1: its upper bits are not all zero, so that the most that they can be, added
// to them, carries. With sums in the place of comparisons the compiler takes several elements at a time.
pub fn takes_three(element: u64) -> u64
    ensures { result ≡ choose (is_small element) 0 1 }
{
    ((element >> Word::PAYLOAD_BITS) + MOST_UPPER) >> UPPER_BITS
}

// What half of p, rounded up, lacks to 2^63.
const ABOVE_HALF: u64 = (1 << 63) - (field::P / 2 + 1);

// 1 where the word is not canonical, else 0: half of it, rounded up, then carries.
fn not_canonical(word: u64) -> u64
    ensures { result ≡ choose (leb P word) 1 0 }
{
    ((word >> 1) + word % 2 + ABOVE_HALF) >> 63
}

// What is measured of elements: the bytes that they need, and how many are not canonical.
#[derive(Clone, Copy)]
pub struct Measured {
    pub bytes: usize,
    pub bad: u64,
}

// The bytes are 4 for each element, and 8 more for each that one word does not hold. Both are found in one pass, since
// a long list comes from memory.
pub fn measure(elements: &[u64]) -> Measured
    requires { 12 * length elements.now < 2 ^ 64 }
    ensures { (result.bytes ≡ all_bytes_needed elements.now)
        × (result.bad ≡ bad_count elements.now) }
{
    let mut threes: u64 = 0;
    let mut bad: u64 = 0;
    for element in elements {
        threes += takes_three(*element);
        bad += not_canonical(*element);
    }
    Measured {
        bytes: 4 * elements.len() + 8 * (threes as usize),
        bad,
    }
}

// Where one word does not hold the element, its first two become the words from `index` on. Answers the word that its
// last becomes.
fn write_first(element: u64, index: usize, destination: &mut [u8]) -> usize
    requires { 4 * (index + length (short_words element)) ≤ length destination.old }
    ensures result_value { result + 1 ≡ index + length (short_words element) }
    ensures destination_after { destination.new ≡ sets destination.old (4 * index)
        (bytes_of (choose (is_small element) [] (upper_words element))) }
{
    if is_small(element) {
        return index;
    }
    board_words::write_upper(element, index, destination);
    index + 2
}

// The element becomes the words from `index` on. Answers the word after it. One word or three, the last is the same.
pub fn write(element: u64, index: usize, destination: &mut [u8]) -> usize
    requires { 4 * (index + length (short_words element)) ≤ length destination.old }
    ensures value { result ≡ index + length (short_words element) }
    ensures destination_after { destination.new
        ≡ sets destination.old (4 * index) (bytes_of (short_words element)) }
{
    let last = write_first(element, index, destination);
    board_words::write_low(element, last, destination);
    last + 1
}

// The elements become the words from `index` on. Answers the word after the last.
pub fn write_all(elements: &[u64], index: usize, destination: &mut [u8]) -> usize
    requires { 4 * (index + length (short_words_of elements.now)) ≤ length destination.old }
    ensures value { result ≡ index + length (short_words_of elements.now) }
    ensures destination_after { destination.new
        ≡ sets destination.old (4 * index) (bytes_of (short_words_of elements.now)) }
{
    let mut at = index;
    for element in elements {
        at = write(*element, at, destination);
    }
    at
}
