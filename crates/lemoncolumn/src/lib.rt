// The library for other languages: each operation over numbers and slices, its answer in one returned number (crate
// `call_results`). What each call answers and leaves is said in crate `call_answers`. A slice is passed as a pointer and a length.
// A refusal alters no lent buffer here either.
#![tactic(auto)]

ghost use Rattle.std.specs.Prelude.{◌≡◌, [], ◌∷◌, length};
ghost use Rattle.check_trace.specs.Answers.{check_answer};
ghost use Rattle.call_results.specs.Code.{tests_code};
ghost use Rattle.call_results.specs.HandsOver.{HandsOver};
ghost use Rattle.call_answers.specs.Calls.{interface, PrepareCall, hash_call, chain_call, BuildCall, ReadOffCall, EditCall};
ghost use Rattle.call_answers.specs.Calls.{UnhashCall, PackCall, UnpackCall, PackShortCall, UnpackShortCall, ToShortCall};
ghost use Rattle.call_answers.specs.Calls.{ToFullCall};

use numbers::{PAIR_WORDS, TapNumber, WIDTH};

// Raised with LEMONCOLUMN_INTERFACE of include/lemoncolumn.h.
const INTERFACE: u64 = 3;

// The words of the destination of Hash, a final state, and of that of Unhash, a pair of taps.
const STATE_ROOM: usize = WIDTH;

const PAIR_ROOM: usize = PAIR_WORDS;

// The number of these calls, which a caller compares with the one that it was compiled for before it makes any other.
#[unsafe(no_mangle)]
pub extern "C" fn lemoncolumn_interface() -> u64
    ensures { result ≡ interface }
{
    INTERFACE
}

// Prepare: 1, 8, 2, 3.
#[unsafe(no_mangle)]
pub extern "C" fn lemoncolumn_prepare(raw: &[u64], destination: &mut [u64]) -> u64
    ensures { PrepareCall raw.now destination.old result destination.new }
{
    call_results::answer_code(table_prepare::prepare(raw, destination))
}

// Hash: 1, 2, 4, 8, 6.
#[unsafe(no_mangle)]
pub extern "C" fn lemoncolumn_hash(
    table: &[u64],
    w0: u64,
    w1: u64,
    w2: u64,
    w3: u64,
    w4: u64,
    w5: u64,
    w6: u64,
    w7: u64,
    output: &mut [u64],
) -> u64
    ensures { HandsOver
        (hash_call table.now (w0 ∷ w1 ∷ w2 ∷ w3 ∷ w4 ∷ w5 ∷ w6 ∷ w7 ∷ []) (length output.old)) result
        output.old output.new }
{
    if output.len() != STATE_ROOM {
        return call_results::answer_code(call_answers::hash_no_room(table));
    }
    call_results::hand_over(hash::hash(table, [w0, w1, w2, w3, w4, w5, w6, w7]), output)
}

// Chain: 1, 2, 4, 5, 8, 6.
#[unsafe(no_mangle)]
pub extern "C" fn lemoncolumn_chain(table: &[u64], taps: &[u64], output: &mut [u64]) -> u64
    ensures { HandsOver (chain_call table.now taps.now (length output.old)) result
        output.old output.new }
{
    if output.len() != 4 {
        return call_results::answer_code(call_answers::chain_no_room(table, taps));
    }
    call_results::hand_over(hash_chain::chain(table, taps), output)
}

// Build: 1, 2, 4, 5, 8, 6.
#[unsafe(no_mangle)]
pub extern "C" fn lemoncolumn_build(
    table: &[u64],
    taps: &[u64],
    trace: &mut [u64],
    output: &mut [u64],
) -> u64
    ensures { BuildCall table.now taps.now result trace.old trace.new
        output.old output.new }
{
    if output.len() != 4 {
        return call_results::answer_code(call_answers::chain_no_room(table, taps));
    }
    call_results::hand_over(trace::build(table, taps, trace), output)
}

// Check: 1, 2, 4, 7, 17, 9, 10, 11.
#[unsafe(no_mangle)]
pub extern "C" fn lemoncolumn_check(
    table: &[u64],
    trace: &[u64],
    c0: u64,
    c1: u64,
    c2: u64,
    c3: u64,
    c: usize,
) -> u64
    ensures { result ≡ tests_code
        (check_answer table.now trace.now (c0 ∷ c1 ∷ c2 ∷ c3 ∷ []) c) }
{
    call_results::tests_code(check_trace::check(table, trace, [c0, c1, c2, c3], c))
}

// Read-off: 1, 2, 4, 7, 17, 8, 9, 10, 11.
#[unsafe(no_mangle)]
pub extern "C" fn lemoncolumn_read_off(
    table: &[u64],
    trace: &[u64],
    c0: u64,
    c1: u64,
    c2: u64,
    c3: u64,
    c: usize,
    taps: &mut [u64],
) -> u64
    ensures { ReadOffCall table.now trace.now (c0 ∷ c1 ∷ c2 ∷ c3 ∷ []) c result
        taps.old taps.new }
{
    call_results::tests_code(trace_read_off::read_off(table, trace, [c0, c1, c2, c3], c, taps))
}

// Edit: 1, 2, 4, 7, 17, 15, 8, 9, 10, 6, 11.
#[unsafe(no_mangle)]
pub extern "C" fn lemoncolumn_edit(
    table: &[u64],
    trace: &mut [u64],
    c0: u64,
    c1: u64,
    c2: u64,
    c3: u64,
    c: usize,
    tap: usize,
    w0: u64,
    w1: u64,
    w2: u64,
    w3: u64,
    output: &mut [u64],
) -> u64
    ensures { EditCall table.now trace.old (c0 ∷ c1 ∷ c2 ∷ c3 ∷ []) c tap
        (w0 ∷ w1 ∷ w2 ∷ w3 ∷ []) result trace.new output.old output.new }
{
    let number = TapNumber(tap);
    if output.len() != 4 {
        return call_results::answer_code(call_answers::edit_no_room(table, trace, c, number));
    }
    call_results::hand_over(
        trace_edit::edit(table, trace, [c0, c1, c2, c3], c, number, [w0, w1, w2, w3]),
        output,
    )
}

// Unhash: 1, 2, 4, 8, 6, 16.
#[unsafe(no_mangle)]
pub extern "C" fn lemoncolumn_unhash(
    table: &[u64],
    s0: u64,
    s1: u64,
    s2: u64,
    s3: u64,
    s4: u64,
    s5: u64,
    s6: u64,
    s7: u64,
    s8: u64,
    s9: u64,
    s10: u64,
    s11: u64,
    pair: &mut [u64],
) -> u64
    ensures { UnhashCall table.now
        (s0 ∷ s1 ∷ s2 ∷ s3 ∷ s4 ∷ s5 ∷ s6 ∷ s7 ∷ s8 ∷ s9 ∷ s10 ∷ s11 ∷ []) result
        pair.old pair.new }
{
    if pair.len() != PAIR_ROOM {
        return call_results::answer_code(call_answers::hash_no_room(table));
    }
    call_results::hand_over(
        hash_undo::unhash(table, [s0, s1, s2, s3, s4, s5, s6, s7, s8, s9, s10, s11]),
        pair,
    )
}

// Pack: 5, 8, 9, 6.
#[unsafe(no_mangle)]
pub extern "C" fn lemoncolumn_pack(
    taps: &[u64],
    c0: u64,
    c1: u64,
    c2: u64,
    c3: u64,
    file: &mut [u8],
) -> u64
    ensures { PackCall taps.now (c0 ∷ c1 ∷ c2 ∷ c3 ∷ []) file.old result file.new }
{
    call_results::answer_code(board::pack(taps, [c0, c1, c2, c3], file))
}

// Unpack: 12 (below 4), word 0's 13 then 14, 12, 8, then each element's three kinds and its value.
#[unsafe(no_mangle)]
pub extern "C" fn lemoncolumn_unpack(file: &[u8], taps: &mut [u64], claim: &mut [u64]) -> u64
    ensures { UnpackCall file.now result taps.old taps.new
        claim.old claim.new }
{
    if claim.len() != 4 {
        return call_results::words_code(board::unpack(file, &mut taps[..0]));
    }
    call_results::hand_over(board::unpack(file, taps), claim)
}

// The short edition's writer: 5, 8, 9, 6.
#[unsafe(no_mangle)]
pub extern "C" fn lemoncolumn_pack_short(
    taps: &[u64],
    c0: u64,
    c1: u64,
    c2: u64,
    c3: u64,
    file: &mut [u8],
) -> u64
    ensures { PackShortCall taps.now (c0 ∷ c1 ∷ c2 ∷ c3 ∷ []) file.old result
        file.new }
{
    call_results::answer_code(board_short::pack_short(taps, [c0, c1, c2, c3], file))
}

// The short edition's reader: 12 (below 4), word 0's 13 then 14, 8, then element by element 12 where the input ends,
// 13, 14, 18, and 12 for bytes after the last.
#[unsafe(no_mangle)]
pub extern "C" fn lemoncolumn_unpack_short(file: &[u8], taps: &mut [u64], claim: &mut [u64]) -> u64
    ensures { UnpackShortCall file.now result taps.old taps.new
        claim.old claim.new }
{
    if claim.len() != 4 {
        return call_results::words_code(board_short::unpack_short(file, &mut taps[..0]));
    }
    call_results::hand_over(board_short::unpack_short(file, taps), claim)
}

// From the full edition to the short one: 12 (below 4), word 0's 13, 19, 14, 12, then each element's 13 and 14, and
// last 8.
#[unsafe(no_mangle)]
pub extern "C" fn lemoncolumn_to_short(file: &[u8], short: &mut [u8]) -> u64
    ensures { ToShortCall file.now short.old result short.new }
{
    call_results::answer_code(board_to_short::to_short(file, short))
}

// From the short edition to the full one: 12 (below 4), word 0's 13, 19, 14, right after it 14 for more batches than a
// full file has, then element by element 12 where the input ends, 13, 14, 18, and 12 for bytes after the last, and last
// 8.
#[unsafe(no_mangle)]
pub extern "C" fn lemoncolumn_to_full(short: &[u8], file: &mut [u8]) -> u64
    ensures { ToFullCall short.now file.old result file.new }
{
    call_results::answer_code(board_to_full::to_full(short, file))
}
