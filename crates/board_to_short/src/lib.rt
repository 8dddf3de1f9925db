// From the full edition of the board file to the short one (document 02, U8): one pass over the elements tests them and
// counts the output's length, and one writes it. There is no list of taps in between.
#![tactic(auto)]

ghost use Rattle.std.specs.Prelude.{◌≡◌, ℕ, ◌+◌, ◌*◌, ◌≤◌, ◌<◌, eqb, length};
ghost use Rattle.std.proofs.lemmas.List.Edits.{sets};
ghost use Rattle.field.specs.Field.{P};
ghost use Rattle.refusals.specs.Answers.{unless, after};
ghost use Rattle.refusals.specs.declared.Refusal.TheVariants as refusal;
ghost use Rattle.board_words.specs.Words.{bytes_of};
ghost use Rattle.board_words.specs.Elements.{element_at, elements_at, elements_test};
ghost use Rattle.board.specs.Board.{batches_in, claim_in, taps_in, IsBoard};
ghost use Rattle.board_short_words.specs.Short.{short_words_of, all_bytes_needed};
ghost use Rattle.board_short.specs.ShortBoard.{short_file_size, packed_short};
ghost use Rattle.board_to_short.specs.ToShort.{to_short_test, to_short_leaves};

use board::{BATCH_BYTES, EXTRA_BYTES, EXTRA_ELEMENTS};
use board_edition::Edition;
use board_words::Word;
use numbers::BATCH_TAP_WORDS;
use refusals::Refusal;

// What reading the elements after word 0 finds, element by element, then 8: the destination has not the length that
// they need.
fn test_elements(file: &[u8], count: usize, size: usize) -> Result<(), Refusal>
    requires { 4 + 12 * count ≤ length file.now }
    ensures { result ≡ after (elements_test file.now 1 count)
        (unless (eqb size (4 + all_bytes_needed (elements_at file.now 1 count))) refusal.DestinationLength
        (Ok tt)) }
{
    let mut threes: u64 = 0;
    for i in 0..count {
        board_read::test(file, 1 + 3 * i)?;
        threes += board_short_words::takes_three(board_read::read(file, 1 + 3 * i));
    }
    if size != 4 + 4 * count + 8 * (threes as usize) {
        return Err(Refusal::DestinationLength);
    }
    Ok(())
}

// What is tested: 12 (below 4), word 0's 13, 19, 14, 12, then each element's 13 and 14, and last 8.
fn test(file: &[u8], size: usize) -> Result<(), Refusal>
    ensures { result ≡ to_short_test file.now size }
{
    board_edition::test(file, Edition::Full.mark())?;
    let word = Word::read(file, 0);
    board::test_count(word)?;
    let k = board::count_in(word);
    if file.len() != BATCH_BYTES * k + EXTRA_BYTES {
        return Err(Refusal::FileLength);
    }
    test_elements(file, BATCH_TAP_WORDS * k + EXTRA_ELEMENTS, size)
}

// The elements after word 0 become those of the short file.
fn write_elements(file: &[u8], count: usize, destination: &mut [u8])
    requires { (4 + 12 * count ≤ length file.now)
        × ((i : ℕ) → i < count → element_at file.now (1 + 3 * i) < P)
        × (4 + all_bytes_needed (elements_at file.now 1 count) ≤ length destination.old) }
    ensures { destination.new ≡ sets destination.old 4
        (bytes_of (short_words_of (elements_at file.now 1 count))) }
{
    let mut at = 1;
    for i in 0..count {
        at = board_short_words::write(board_read::read(file, 1 + 3 * i), at, destination);
    }
}

// The short file of a full one.
fn write(file: &[u8], destination: &mut [u8])
    requires { IsBoard file.now (batches_in file.now)
        × (length destination.old ≡ short_file_size (taps_in file.now) (claim_in file.now)) }
    ensures { destination.new
        ≡ packed_short (taps_in file.now) (claim_in file.now) }
{
    let k = board::count_in(Word::read(file, 0));
    board_short::count_word(k).write(0, destination);
    write_elements(file, BATCH_TAP_WORDS * k + EXTRA_ELEMENTS, destination);
}

// The converter writes the short file of a full one when all its tests have passed.
pub fn to_short(file: &[u8], destination: &mut [u8]) -> Result<(), Refusal>
    ensures value { result ≡ to_short_test file.now (length destination.old) }
    ensures destination_after { destination.new ≡ to_short_leaves file.now destination.old }
{
    test(file, destination.len())?;
    write(file, destination);
    Ok(())
}
