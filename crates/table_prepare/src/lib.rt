// Prepare (document 01, "The table").
#![tactic(auto)]

ghost use Rattle.std.specs.Prelude.{◌≡◌, ◌<◌, length};
ghost use Rattle.lists.specs.Lists.{cell};
ghost use Rattle.matrix.specs.Matrix.{matrix_words};
ghost use Rattle.table.specs.Table.{raw_words, table_words, prepared, Prepares};

use matrix::MATRIX_WORDS;
use refusals::Refusal;
use table::{RAW_WORDS, WORDS};

// Word t of the prepared table: M, its inverse n, then K.
fn prepared_word(raw: &[u64], n: &[u64; MATRIX_WORDS], t: usize) -> u64
    requires { (length raw.now ≡ raw_words) × (length n.now ≡ matrix_words) × (t < table_words) }
    ensures { result ≡ cell (prepared raw.now n.now) t }
{
    if t < MATRIX_WORDS {
        return raw[t];
    }
    let u = t - MATRIX_WORDS;
    if u < MATRIX_WORDS { n[u] } else { raw[u] }
}

// The prepared table into the destination.
fn write(raw: &[u64], n: &[u64; MATRIX_WORDS], destination: &mut [u64])
    requires { (length raw.now ≡ raw_words) × (length n.now ≡ matrix_words)
        × (length destination.old ≡ table_words) }
    ensures { destination.new ≡ prepared raw.now n.now }
{
    for t in 0..WORDS {
        destination[t] = prepared_word(raw, n, t);
    }
}

// Prepare: 1, 8, 2, 3. The inverse is found in an array of its own, so that a refusal leaves the destination as it was.
pub fn prepare(raw: &[u64], destination: &mut [u64]) -> Result<(), Refusal>
    ensures { Prepares raw.now destination.old result destination.new }
{
    if raw.len() != RAW_WORDS {
        return Err(Refusal::TableLength);
    }
    if destination.len() != WORDS {
        return Err(Refusal::DestinationLength);
    }
    if let Some(bad) = field_words::first_bad(raw) {
        return Err(Refusal::TableWord(bad));
    }
    let Some(n) = matrix_inverse::invert(&raw[..MATRIX_WORDS]) else {
        return Err(Refusal::NoInverse);
    };
    write(raw, &n, destination);
    Ok(())
}
