// What the program does, from the bytes on its standard input to its answer (document 01, "The board file").
#![tactic(auto)]

ghost use Rattle.std.specs.Prelude.{◌≡◌, ◌+◌, ◌*◌, ◌/◌, ◌-◌, ◌≤◌, length};
ghost use Rattle.field_words.specs.Words.{AllCanonical};
ghost use Rattle.numbers.specs.Numbers.{tap_word_batches};
ghost use Rattle.table.specs.Table.{raw_words, IsTable, Prepares};
ghost use Rattle.clear_answer.specs.Clearing.{table_bytes, raw_word, raw_in, checked_taps, cleared};
ghost use Rattle.clear_answer.specs.Clearing.{unprepared, Clears, Taps};
ghost use Rattle.clear_answer.specs.declared.Unclear.TheVariants.{Refused};

use board_words::Word;
use numbers::{BATCH_TAP_WORDS, BATCH_WORDS, TAP_WORDS};
use refusals::Refusal;

// What is told of a board that clears.
#[derive(Clone, Copy)]
pub struct Report {
    pub batches: usize,
    pub tests: usize,
}

// Why an input does not clear.
#[derive(Clone, Copy)]
pub enum Unclear {
    Refused(Refusal),
    TooLong,
}

impl From<Refusal> for Unclear {
    ghost from_gives = { λ r u. u ≡ Refused r };

    fn from(refusal: Refusal) -> Unclear {
        Unclear::Refused(refusal)
    }
}

// A raw table, 8 bytes a word.
const TABLE_BYTES: usize = table::RAW_WORDS * 8;

// The most batches of a board that the program takes.
const MOST_BATCHES: usize = 16;

// The longest input: a table, and a file of 16 batches.
pub const LONGEST: usize = TABLE_BYTES + MOST_BATCHES * board::BATCH_BYTES + board::EXTRA_BYTES;

// Word j of the raw table: 8 bytes, low byte first.
fn raw_word(input: &[u8], j: usize) -> u64
    requires { 8 * j + 8 ≤ length input.now }
    ensures { result ≡ raw_word input.now j }
{
    let low = Word::read(input, 2 * j);
    let high = Word::read(input, 2 * j + 1);
    (low.0 as u64) | ((high.0 as u64) << 32)
}

// The raw table, with which the input begins.
fn read_table(input: &[u8], raw: &mut [u64])
    requires { (table_bytes ≤ length input.now) × (length raw.old ≡ raw_words) }
    ensures { raw.new ≡ raw_in input.now }
{
    for j in 0..table::RAW_WORDS {
        raw[j] = raw_word(input, j);
    }
}

// Prepares the raw table.
fn prepare(input: &[u8], table: &mut [u64]) -> Result<(), Refusal>
    requires { table_bytes ≤ length input.now }
    ensures { Prepares (raw_in input.now) table.old result table.new }
{
    let mut raw = [0u64; table::RAW_WORDS];
    read_table(input, &mut raw);
    table_prepare::prepare(&raw, table)
}

// Room for a prepared table, and for the list and the trace of that many batches.
const LIST_ROOM: usize = MOST_BATCHES * BATCH_TAP_WORDS + TAP_WORDS;

const TRACE_ROOM: usize = MOST_BATCHES * BATCH_WORDS;

fn table_room() -> [u64; table::WORDS]
    ensures { result ≡ unprepared }
{
    [0; table::WORDS]
}

fn tap_room() -> [u64; LIST_ROOM]
    ensures { length result ≡ 196 }
{
    [0; LIST_ROOM]
}

fn trace_room() -> [u64; TRACE_ROOM]
    ensures { length result ≡ 6144 }
{
    [0; TRACE_ROOM]
}

// Builds the trace of the taps and checks it against the claim, which is about all k batches.
fn clear_taps(table: &[u64], taps: &[u64], claim: [u64; 4]) -> Result<Report, Refusal>
    requires { IsTable table.now × Taps taps.now × AllCanonical claim }
    ensures { result ≡ checked_taps table.now taps.now claim (tap_word_batches (length taps.now)) }
{
    let batches = taps.len() / BATCH_TAP_WORDS;
    let mut room = trace_room();
    let trace = &mut room[..BATCH_WORDS * batches];
    trace::build(table, taps, trace)?;
    let tests = check_trace::check(table, trace, claim, batches)?;
    Ok(Report { batches, tests })
}

// The tap words of a file of so many bytes: 12 bytes an element, of which the first four are the claim.
fn tap_words(bytes: usize) -> usize
    requires { bytes ≤ 2404 }
    ensures { result ≡ bytes / 12 - 4 }
{
    if bytes < 48 { 0 } else { bytes / 12 - 4 }
}

// Unpacks the file and clears its taps. For a file of another length than 144k + 100 the destination does not matter:
// Unpack tests 12 before 8.
fn clear_file(table: &[u64], file: &[u8]) -> Result<Report, Refusal>
    requires { IsTable table.now × (length file.now ≤ 2404) }
    ensures { result ≡ cleared table.now file.now }
{
    let size = tap_words(file.len());
    let mut room = tap_room();
    let taps = &mut room[..size];
    let claim = board::unpack(file, taps)?;
    clear_taps(table, taps, claim)
}

// The answer for what stands on standard input, of which 5573 bytes are enough to know that it is too long.
pub fn clear(input: &[u8]) -> Result<Report, Unclear>
    ensures { Clears input.now result }
{
    if input.len() < TABLE_BYTES {
        return Err(Unclear::Refused(Refusal::TableLength));
    }
    if LONGEST < input.len() {
        return Err(Unclear::TooLong);
    }
    let mut table = table_room();
    prepare(input, &mut table)?;
    Ok(clear_file(&table, &input[TABLE_BYTES..])?)
}
