// Pack and Unpack (document 01, "The board file"). Neither hashes.
// The claim's four elements begin at words 1, 4, 7 and 10, the taps' at word 13.
#![tactic(auto)]

ghost use Rattle.std.specs.Prelude.{◌≡◌, ◌+◌, ◌*◌, ◌≤◌, length};
ghost use Rattle.numbers.specs.Numbers.{tap_words};
ghost use Rattle.board.specs.Board.{most_file_batches, count_word, file_of, file_size, pack_test, pack_leaves};
ghost use Rattle.board.specs.Board.{count_in, count_test, unpack_test, unpack_answer, unpack_leaves};

use board_words::{Kind, Word};
use numbers::{BATCH_TAP_WORDS, TAP_WORDS};
use refusals::Refusal;

// The most batches of a file, fewer than of a list of taps (document 02, U9).
pub const MOST_FILE_BATCHES: usize = 1024;

// The elements beside those of the batches: the claim, and the one tap more.
pub const EXTRA_ELEMENTS: usize = 2 * TAP_WORDS;

// An element is three words of four bytes. The bytes of a batch, and those beside them, with the first word.
pub const BATCH_BYTES: usize = 12 * BATCH_TAP_WORDS;

pub const EXTRA_BYTES: usize = 4 + 12 * EXTRA_ELEMENTS;

// What Pack tests: 5, 8, 9, 6.
fn test_pack(taps: &[u64], claim: [u64; 4], size: usize) -> Result<(), Refusal>
    ensures { result ≡ pack_test taps.now claim size }
{
    let k = numbers::tap_batches(MOST_FILE_BATCHES, taps.len()).ok_or(Refusal::TapLength)?;
    if size != BATCH_BYTES * k + EXTRA_BYTES {
        return Err(Refusal::DestinationLength);
    }
    if let Some(bad_claim) = field_words::first_bad(&claim) {
        return Err(Refusal::ClaimWord(bad_claim));
    }
    if let Some(bad_tap) = field_words::first_bad(taps) {
        return Err(Refusal::TapWord(bad_tap));
    }
    Ok(())
}

// Word 0: k.
pub fn count_word(k: usize) -> Word
    requires { k ≤ most_file_batches }
    ensures { result.0 ≡ count_word k }
{
    Word::join(Kind::Count, k as u32)
}

// Word 0, then claim and taps.
fn write_file(taps: &[u64], claim: [u64; 4], k: usize, destination: &mut [u8])
    requires { (k ≤ most_file_batches) × (length taps.now ≡ tap_words k) × (length destination.old ≡ file_size k) }
    ensures { destination.new ≡ file_of taps.now claim k }
{
    count_word(k).write(0, destination);
    board_words::write_all(&claim, 1, destination);
    board_words::write_all(taps, 13, destination);
}

// Pack writes the board file of the taps and the claim when all its tests have passed.
pub fn pack(taps: &[u64], claim: [u64; 4], destination: &mut [u8]) -> Result<(), Refusal>
    ensures value { result ≡ pack_test taps.now claim (length destination.old) }
    ensures destination_after { destination.new ≡ pack_leaves taps.now claim destination.old }
{
    test_pack(taps, claim, destination.len())?;
    write_file(taps, claim, taps.len() / BATCH_TAP_WORDS, destination);
    Ok(())
}

// k, in bits 0 to 15 of word 0.
pub fn count_in(word: Word) -> usize
    ensures { result ≡ count_in word.0 }
{
    (word.0 & 0xffff) as usize
}

// What reading word 0 finds: 13, then 14.
pub fn test_count(word: Word) -> Result<(), Refusal>
    ensures { result ≡ count_test word.0 }
{
    if word.kind() != Kind::Count {
        return Err(Refusal::WrongKind(0));
    }
    if word.payload() >> 16 != 0 {
        return Err(Refusal::WrongValue(0));
    }
    if !numbers::is_permitted(MOST_FILE_BATCHES, count_in(word)) {
        return Err(Refusal::WrongValue(0));
    }
    Ok(())
}

// What Unpack tests: 12 (below 4), word 0's 13 then 14, 12, 8, then each element's three kinds and its value.
fn test_unpack(file: &[u8], size: usize) -> Result<(), Refusal>
    ensures { result ≡ unpack_test file.now size }
{
    if file.len() < 4 {
        return Err(Refusal::FileLength);
    }
    let word = Word::read(file, 0);
    test_count(word)?;
    let k = count_in(word);
    if file.len() != BATCH_BYTES * k + EXTRA_BYTES {
        return Err(Refusal::FileLength);
    }
    if size != BATCH_TAP_WORDS * k + TAP_WORDS {
        return Err(Refusal::DestinationLength);
    }
    board_read::test_all(file, 1, BATCH_TAP_WORDS * k + EXTRA_ELEMENTS)
}

// Unpack writes the taps of a board file and returns its claim when all its tests have passed.
pub fn unpack(file: &[u8], destination: &mut [u64]) -> Result<[u64; 4], Refusal>
    ensures value { result ≡ unpack_answer file.now (length destination.old) }
    ensures destination_after { destination.new ≡ unpack_leaves file.now destination.old }
{
    test_unpack(file, destination.len())?;
    let mut claim = [0; 4];
    board_read::read_all(file, 1, &mut claim);
    board_read::read_all(file, 13, destination);
    Ok(claim)
}
