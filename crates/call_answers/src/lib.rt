// What the calls from other languages answer and leave (specs/Calls.antt), and what is left of the tests of those that
// return words where these find no room.
#![tactic(auto)]

ghost use Rattle.std.specs.Prelude.{◌≡◌};
ghost use Rattle.call_answers.specs.Calls.{hash_no_room, chain_no_room, edit_no_room};

use matrix_ready::READY_WORDS;
use numbers::{BATCH_WORDS, MOST_BATCHES, TapNumber};
use refusals::Refusal;

// What Hash and Unhash refuse where what they return finds no room: 1, 2, 4, 8.
pub fn hash_no_room(table: &[u64]) -> Result<(), Refusal>
    ensures { result ≡ hash_no_room table.now }
{
    table::test(table)?;
    Err(Refusal::DestinationLength)
}

// What Chain and Build refuse where their output finds no room: 1, 2, 4, 5, 8.
pub fn chain_no_room(table: &[u64], taps: &[u64]) -> Result<(), Refusal>
    ensures { result ≡ chain_no_room table.now taps.now }
{
    table::test(table)?;
    numbers::tap_batches(MOST_BATCHES, taps.len()).ok_or(Refusal::TapLength)?;
    Err(Refusal::DestinationLength)
}

// What Edit refuses where its output finds no room: 1, 2, 4, 7, 17, 15, 8.
pub fn edit_no_room(table: &[u64], trace: &[u64], c: usize, tap: TapNumber) -> Result<(), Refusal>
    ensures { result ≡ edit_no_room table.now trace.now c tap.0 }
{
    let mut room = [0u64; READY_WORDS];
    check_trace::test_opening(table, trace, c, &mut room)?;
    if 3 * (trace.len() / BATCH_WORDS) < tap.0 {
        return Err(Refusal::NoSuchTap);
    }
    Err(Refusal::DestinationLength)
}
