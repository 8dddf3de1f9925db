// From the short edition of the board file to the full one (document 02, U8 and U9): one pass over the elements tests
// them, and one writes the output, whose length k says. There is no list of taps in between.
#![tactic(auto)]

ghost use Rattle.std.specs.Prelude.{◌≡◌, ℕ, ◌+◌, ◌*◌, ◌≤◌, ◌<◌, length};
ghost use Rattle.std.proofs.lemmas.List.Edits.{sets};
ghost use Rattle.board_words.specs.Words.{bytes_of};
ghost use Rattle.board_words.specs.Elements.{words_of};
ghost use Rattle.board.specs.Board.{most_file_batches, file_size, packed};
ghost use Rattle.board_short_read.specs.Reading.{short_test, first_word, shorts_at};
ghost use Rattle.board_short.specs.ShortBoard.{short_batches_in, short_claim_in, short_taps_in, IsShortBoard};
ghost use Rattle.board_to_full.specs.ToFull.{to_full_test, to_full_leaves};

use board::{BATCH_BYTES, EXTRA_BYTES, EXTRA_ELEMENTS};
use board_edition::Edition;
use board_words::Word;
use numbers::BATCH_TAP_WORDS;
use refusals::Refusal;

// What is tested: 12 (below 4), word 0's 13, 19, 14, right after it 14 for more batches than a full file has, then
// element by element 12 where the input ends, 13, 14, 18, and 12 for bytes after the last, and last 8.
fn test(file: &[u8], size: usize) -> Result<(), Refusal>
    ensures { result ≡ to_full_test file.now size }
{
    board_edition::test(file, Edition::Short.mark())?;
    let word = Word::read(file, 0);
    board_short::test_count(word)?;
    let k = board_short::count_in(word);
    if board::MOST_FILE_BATCHES < k {
        return Err(Refusal::WrongValue(0));
    }
    board_short_read::test_all(file, 1, BATCH_TAP_WORDS * k + EXTRA_ELEMENTS)?;
    if size != BATCH_BYTES * k + EXTRA_BYTES {
        return Err(Refusal::DestinationLength);
    }
    Ok(())
}

// The elements after word 0, once their tests have accepted them, become those of the full file.
fn write_elements(file: &[u8], count: usize, destination: &mut [u8])
    requires { ((i : ℕ) → i < count → short_test file.now (first_word file.now 1 i) ≡ Ok tt)
        × (4 + 12 * count ≤ length destination.old) }
    ensures { destination.new ≡ sets destination.old 4
        (bytes_of (words_of (shorts_at file.now 1 count))) }
{
    let mut at = 1;
    for i in 0..count {
        let element = board_short_read::read(file, at);
        board_words::write(element.value, 1 + 3 * i, destination);
        at = element.next;
    }
}

// The full file of a short one.
fn write(file: &[u8], destination: &mut [u8])
    requires { IsShortBoard file.now (short_batches_in file.now) × (short_batches_in file.now ≤ most_file_batches)
        × (length destination.old ≡ file_size (short_batches_in file.now)) }
    ensures { destination.new
        ≡ packed (short_taps_in file.now) (short_claim_in file.now) }
{
    let k = board_short::count_in(Word::read(file, 0));
    board::count_word(k).write(0, destination);
    write_elements(file, BATCH_TAP_WORDS * k + EXTRA_ELEMENTS, destination);
}

// The converter writes the full file of a short one when all its tests have passed.
pub fn to_full(file: &[u8], destination: &mut [u8]) -> Result<(), Refusal>
    ensures value { result ≡ to_full_test file.now (length destination.old) }
    ensures destination_after { destination.new ≡ to_full_leaves file.now destination.old }
{
    test(file, destination.len())?;
    write(file, destination);
    Ok(())
}
