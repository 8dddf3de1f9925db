// The rows of a trace written anew, in place, from the hash that takes a replaced tap in: with no second trace and no
// list of all taps (document 02, U1).
#![tactic(auto)]

ghost use Rattle.std.specs.Prelude.{◌≡◌, ◌+◌};
ghost use Rattle.trace.specs.Trace.{trace as trace_of};
ghost use Rattle.check_constraints.specs.ReadOff.{read_taps};
ghost use Rattle.trace_read_off.specs.TapHelpers.{HasTap};
ghost use Rattle.trace_rewrite.specs.Edit.{altered};
ghost use Rattle.trace_rewrite.specs.EditHelpers.{Rewritable, tap_of, last_before};

use check_steps::{BackReady, Steps};
use numbers::{HashNumber, TapNumber, WIDTH};

// The tap that the hash takes in: the new one, or what its rows hold, which are still the old ones.
fn next_tap(
    back: BackReady,
    trace: &[u64],
    hash: HashNumber,
    tap: TapNumber,
    words: [u64; 4],
) -> [u64; 4]
    requires { HasTap trace.now (hash.0 + 1) }
    ensures { result ≡ tap_of back.entry.table.now trace.now tap.0 words (hash.0 + 1) }
{
    let next = hash.tap();
    if next.0 == tap.0 {
        return words;
    }
    trace_read_off::read_tap(back, trace, next)
}

// The state that begins with the last output before the hash that takes the tap in.
fn last_before(back: BackReady, trace: &[u64], tap: TapNumber, words: [u64; 4]) -> [u64; WIDTH]
    requires { HasTap trace.now tap.0 }
    ensures { result ≡ last_before back.entry.table.now trace.now tap.0 words }
{
    if tap.0 == 0 {
        return hash_chain::chain_start(&words);
    }
    trace_read_off::read_input(back, trace, tap.hash())
}

// The rows from the hash that takes the tap in to the end. Each hash's tap is read before its rows are written.
pub fn rewrite(steps: Steps, k: usize, tap: TapNumber, words: [u64; 4], trace: &mut [u64])
    requires { Rewritable steps.ready.table.now trace.old k tap.0 words }
    ensures { trace.new
        ≡ trace_of steps.entry.ready.table.now
        (altered (read_taps steps.entry.ready.table.now trace.old k) tap.0 words) k }
{
    let hashes = 3 * k;
    let first = tap.hash();
    let start = first.0;
    let mut state = last_before(steps.back, trace, tap, words);
    for h in start..hashes {
        let hash = HashNumber(h);
        let next = next_tap(steps.back, trace, hash, tap, words);
        let input = hash_chain::next_input(state, next);
        let last = trace::write_hash(steps.ready, hash, input, trace);
        state = last;
    }
}
