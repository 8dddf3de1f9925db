// The short edition's writer and reader (document 02, U7 and U9). Neither hashes.
#![tactic(auto)]

ghost use Rattle.std.specs.Prelude.{◌≡◌, ◌≤◌, length};
ghost use Rattle.numbers.specs.Numbers.{most_batches};
ghost use Rattle.board_short.specs.ShortBoard.{short_count_word, short_file_of, short_file_size, short_count_in};
ghost use Rattle.board_short.specs.ShortBoard.{pack_short_test, pack_short_leaves, short_count_test, unpack_short_test};
ghost use Rattle.board_short.specs.ShortBoard.{unpack_short_answer, unpack_short_leaves};

use board::EXTRA_ELEMENTS;
use board_words::{Kind, Word};
use numbers::{BATCH_TAP_WORDS, MOST_BATCHES, TAP_WORDS};
use refusals::Refusal;

// The bits of word 0 that hold k.
const COUNT_BITS: u32 = 20;

const COUNT_MASK: u32 = (1 << COUNT_BITS) - 1;

// Bit 29 of word 0.
const MARK: u32 = 1 << 29;

// What the writer tests: 5, 8, 9, 6.
fn test_pack(taps: &[u64], claim: [u64; 4], size: usize) -> Result<(), Refusal>
    ensures { result ≡ pack_short_test taps.now claim size }
{
    numbers::tap_batches(MOST_BATCHES, taps.len()).ok_or(Refusal::TapLength)?;
    let of_claim = board_short_words::measure(&claim);
    let of_taps = board_short_words::measure(taps);
    if size != 4 + of_claim.bytes + of_taps.bytes {
        return Err(Refusal::DestinationLength);
    }
    if let Some(bad_claim) = field_words::first_bad(&claim) {
        return Err(Refusal::ClaimWord(bad_claim));
    }
    if of_taps.bad != 0 {
        if let Some(bad_tap) = field_words::first_bad(taps) {
            return Err(Refusal::TapWord(bad_tap));
        }
    }
    Ok(())
}

// Word 0: the mark beside k.
pub fn count_word(k: usize) -> Word
    requires { k ≤ most_batches }
    ensures { result.0 ≡ short_count_word k }
{
    Word::join(Kind::Count, MARK | (k as u32))
}

// Word 0, then claim and taps.
fn write_file(taps: &[u64], claim: [u64; 4], k: usize, destination: &mut [u8])
    requires { (k ≤ most_batches) × (length destination.old ≡ short_file_size taps.now claim) }
    ensures { destination.new ≡ short_file_of taps.now claim k }
{
    count_word(k).write(0, destination);
    let after_claim = board_short_words::write_all(&claim, 1, destination);
    board_short_words::write_all(taps, after_claim, destination);
}

// The writer writes the short file of the taps and the claim when all its tests have passed.
pub fn pack_short(taps: &[u64], claim: [u64; 4], destination: &mut [u8]) -> Result<(), Refusal>
    ensures value { result ≡ pack_short_test taps.now claim (length destination.old) }
    ensures destination_after { destination.new
        ≡ pack_short_leaves taps.now claim destination.old }
{
    test_pack(taps, claim, destination.len())?;
    write_file(taps, claim, taps.len() / BATCH_TAP_WORDS, destination);
    Ok(())
}

// k, in bits 0 to 19 of word 0.
pub fn count_in(word: Word) -> usize
    ensures { result ≡ short_count_in word.0 }
{
    (word.0 & COUNT_MASK) as usize
}

// What reading word 0 finds: 13, then 14. Bits 20 to 29 are the mark alone.
pub fn test_count(word: Word) -> Result<(), Refusal>
    ensures { result ≡ short_count_test word.0 }
{
    if word.kind() != Kind::Count {
        return Err(Refusal::WrongKind(0));
    }
    if word.payload() >> COUNT_BITS != MARK >> COUNT_BITS {
        return Err(Refusal::WrongValue(0));
    }
    if !numbers::is_permitted(MOST_BATCHES, count_in(word)) {
        return Err(Refusal::WrongValue(0));
    }
    Ok(())
}

// What the reader tests: 12 (below 4), word 0's 13 then 14, 8, then element by element 12 where the input ends, 13, 14,
// 18, and 12 for bytes after the last.
fn test_unpack(file: &[u8], size: usize) -> Result<(), Refusal>
    ensures { result ≡ unpack_short_test file.now size }
{
    if file.len() < 4 {
        return Err(Refusal::FileLength);
    }
    let word = Word::read(file, 0);
    test_count(word)?;
    let k = count_in(word);
    if size != BATCH_TAP_WORDS * k + TAP_WORDS {
        return Err(Refusal::DestinationLength);
    }
    board_short_read::test_all(file, 1, BATCH_TAP_WORDS * k + EXTRA_ELEMENTS)
}

// The reader writes the taps of a short file and returns its claim when all its tests have passed.
pub fn unpack_short(file: &[u8], destination: &mut [u64]) -> Result<[u64; 4], Refusal>
    ensures value { result ≡ unpack_short_answer file.now (length destination.old) }
    ensures destination_after { destination.new ≡ unpack_short_leaves file.now destination.old }
{
    test_unpack(file, destination.len())?;
    let mut claim = [0; 4];
    let after_claim = board_short_read::read_all(file, 1, &mut claim);
    board_short_read::read_all(file, after_claim, destination);
    Ok(claim)
}
