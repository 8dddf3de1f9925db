// Elements of the short edition, as they are read (document 02, U7). An index counts words of the file, from word 0.
#![tactic(auto)]

ghost use Rattle.std.specs.Prelude.{◌≡◌, false, ℕ, ◌+◌, ◌*◌, ◌≤◌, ◌<◌, eqb, length};
ghost use Rattle.board_words.specs.Words.{kind_of, word_at};
ghost use Rattle.board_short_read.specs.Reading.{short_at, next_word, short_test, first_word, shorts_at, shorts_test};

use board_words::{Kind, Word};
use refusals::Refusal;

// An element of three words, the last of which is not there.
fn test_cut(file: &[u8], index: usize) -> Result<(), Refusal>
    requires { (4 * index + 4 ≤ length file.now) × (length file.now < 4 * index + 12)
        × (eqb (kind_of (word_at file.now index)) 3 ≡ false) }
    ensures { result ≡ short_test file.now index }
{
    if Word::read(file, index).kind() != Kind::High {
        return Err(Refusal::WrongKind(index));
    }
    if index + 1 < file.len() / 4 {
        if Word::read(file, index + 1).kind() != Kind::Middle {
            return Err(Refusal::WrongKind(index + 1));
        }
        // the third is missing
        return Err(Refusal::FileLength);
    }
    // the second is
    Err(Refusal::FileLength)
}

// An element of three words that are there.
fn test_whole(file: &[u8], index: usize) -> Result<(), Refusal>
    requires { (4 * index + 12 ≤ length file.now) × (eqb (kind_of (word_at file.now index)) 3 ≡ false) }
    ensures { result ≡ short_test file.now index }
{
    board_read::test(file, index)?;
    if board_short_words::is_small(board_read::read(file, index)) {
        return Err(Refusal::LongElement(index));
    }
    Ok(())
}

// What reading the element finds whose first word is word `index`: 12 where the input ends, 13; after its three words
// 14, then 18.
fn test(file: &[u8], index: usize) -> Result<(), Refusal>
    ensures { result ≡ short_test file.now index }
{
    let words = file.len() / 4;
    if words <= index {
        return Err(Refusal::FileLength);
    }
    if Word::read(file, index).kind() == Kind::Low {
        return Ok(());
    }
    if words <= index + 2 {
        return test_cut(file, index);
    }
    test_whole(file, index)
}

// An element that was read, and the word after it.
#[derive(Clone, Copy)]
pub struct Element {
    pub value: u64,
    pub next: usize,
}

// The element whose first word is word `index`, once its test has accepted it. Both passes over a file go on by this.
pub fn read(file: &[u8], index: usize) -> Element
    requires { short_test file.now index ≡ Ok tt }
    ensures { (result.value ≡ short_at file.now index) × (result.next ≡ next_word file.now index) }
{
    let first = Word::read(file, index);
    if first.kind() == Kind::Low {
        return Element {
            value: first.payload() as u64,
            next: index + 1,
        };
    }
    Element {
        value: board_read::read(file, index),
        next: index + 3,
    }
}

// What reading `count` elements finds, element by element; no byte may stand after the last.
pub fn test_all(file: &[u8], index: usize, count: usize) -> Result<(), Refusal>
    requires { 4 * index ≤ length file.now }
    ensures { result ≡ shorts_test file.now index count }
{
    let mut at = index;
    for _ in 0..count {
        test(file, at)?;
        at = read(file, at).next;
    }
    if 4 * at != file.len() {
        return Err(Refusal::FileLength);
    }
    Ok(())
}

// As many elements as the destination has room for, once their tests have accepted them. Answers the word after the
// last.
pub fn read_all(file: &[u8], index: usize, destination: &mut [u64]) -> usize
    requires { (i : ℕ) → i < length destination.old
        → short_test file.now (first_word file.now index i) ≡ Ok tt }
    ensures value { result ≡ first_word file.now index (length destination.old) }
    ensures destination_after { destination.new
        ≡ shorts_at file.now index (length destination.old) }
{
    let mut at = index;
    for slot in destination.iter_mut() {
        let element = read(file, at);
        *slot = element.value;
        at = element.next;
    }
    at
}
