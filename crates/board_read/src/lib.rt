// The board file's elements, as they are read (document 01, "The board file"). An index counts words of the file, from
// word 0.
#![tactic(auto)]

ghost use Rattle.std.specs.Prelude.{◌≡◌, ℕ, ◌+◌, ◌*◌, ◌≤◌, ◌<◌, length};
ghost use Rattle.field.specs.Field.{P};
ghost use Rattle.board_words.specs.Words.{payload_of};
ghost use Rattle.board_words.specs.Elements.{element_of, element_at, elements_at, element_test, elements_test};

use board_words::{Kind, Word};
use field_elements::Fp;
use refusals::Refusal;

// The number that three payloads spell, where it is a 64-bit one.
fn value(high: Word, middle: Word, low: Word) -> u64
    requires { payload_of high.0 < 16 }
    ensures { result ≡ element_of high.0 middle.0 low.0 }
{
    ((high.payload() as u64) << 60) | ((middle.payload() as u64) << 30) | (low.payload() as u64)
}

// The largest payload of an element's first word: one more makes 2^64.
const MOST_HIGH: u32 = 15;

// The three kinds of the element whose first word is word `index`, then its value. A payload above 15 makes 2^64 or
// more, which no shift here may see.
pub fn test(file: &[u8], index: usize) -> Result<(), Refusal>
    requires { 4 * index + 12 ≤ length file.now }
    ensures { result ≡ element_test file.now index }
{
    let high = Word::read(file, index);
    if high.kind() != Kind::High {
        return Err(Refusal::WrongKind(index));
    }
    let middle = Word::read(file, index + 1);
    if middle.kind() != Kind::Middle {
        return Err(Refusal::WrongKind(index + 1));
    }
    let low = Word::read(file, index + 2);
    if low.kind() != Kind::Low {
        return Err(Refusal::WrongKind(index + 2));
    }
    if MOST_HIGH < high.payload() {
        return Err(Refusal::WrongValue(index));
    }
    if !Fp::is_canonical(value(high, middle, low)) {
        return Err(Refusal::WrongValue(index));
    }
    Ok(())
}

// The same of `count` elements, element by element.
pub fn test_all(file: &[u8], index: usize, count: usize) -> Result<(), Refusal>
    requires { 4 * index + 12 * count ≤ length file.now }
    ensures { result ≡ elements_test file.now index count }
{
    for i in 0..count {
        test(file, index + 3 * i)?;
    }
    Ok(())
}

// The element whose first word is word `index`, once its test has accepted it.
pub fn read(file: &[u8], index: usize) -> u64
    requires { (4 * index + 12 ≤ length file.now) × (element_at file.now index < P) }
    ensures { result ≡ element_at file.now index }
{
    value(
        Word::read(file, index),
        Word::read(file, index + 1),
        Word::read(file, index + 2),
    )
}

// As many elements as the destination has room for.
pub fn read_all(file: &[u8], index: usize, destination: &mut [u64])
    requires { (4 * index + 12 * length destination.old ≤ length file.now)
        × ((i : ℕ) → i < length destination.old → element_at file.now (index + 3 * i) < P) }
    ensures { destination.new
        ≡ elements_at file.now index (length destination.old) }
{
    for (i, slot) in destination.iter_mut().enumerate() {
        *slot = read(file, index + 3 * i);
    }
}
