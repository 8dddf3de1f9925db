// The one line that tells the program's answer (document 01, "The board file").
#![tactic(auto)]

ghost use Rattle.std.specs.Prelude.{◌≡◌, ◌++◌, ◌+◌, ◌≤◌, length, drop, Err};
ghost use Rattle.std.specs.Fmt.{decimal};
ghost use Rattle.std.proofs.lemmas.List.Edits.{sets};
ghost use Rattle.clear_line.specs.Line.{ascii, fields, line, numbers_of, text_of};

use clear_answer::{Report, Unclear};
use refusals::{Particulars, Place};

// n in decimal, from `at` on. The place after it.
fn put_number(n: usize, out: &mut [u8], at: usize) -> usize
    requires { at + length (decimal n) ≤ length out.old }
    ensures { (result ≡ at + length (decimal n)) × (out.new ≡ sets out.old at (decimal n)) × (result ≤ at + 20) }
{
    if n < 10 {
        out[at] = b'0' + n as u8;
        return at + 1;
    }
    let end = put_number(n / 10, out, at);
    out[end] = b'0' + (n % 10) as u8;
    end + 1
}

// The bytes of a word, from the start on. The place after it.
fn put_word(word: &[u8], out: &mut [u8]) -> usize
    requires { length word.now ≤ length out.old }
    ensures { (result ≡ length word.now)
        × (out.new ≡ sets out.old 0 word.now) }
{
    out[..word.len()].copy_from_slice(word);
    word.len()
}

// Each number after a space, from `at` on. The place after them.
fn put_numbers(numbers: &[usize], out: &mut [u8], at: usize) -> usize
    requires { (length numbers.now ≤ 3) × (at + 63 ≤ length out.old) }
    ensures { (result ≡ at + length (fields numbers.now))
        × (out.new ≡ sets out.old at (fields numbers.now)) × (result ≤ at + 63) }
{
    let mut end = at;
    for number in numbers {
        let n = *number;
        out[end] = b' ';
        end = put_number(n, out, end + 1);
    }
    end
}

// A word, its numbers and the line's end. The line's length.
fn put_line(word: &[u8], numbers: &[usize], out: &mut [u8]) -> usize
    requires { (length numbers.now ≤ 3) × (length word.now + 64 ≤ length out.old) }
    ensures { (result ≡ length (line word.now numbers.now))
        × (out.new ≡ sets out.old 0 (line word.now numbers.now)) × (result ≤ length out.old) }
{
    let start = put_word(word, out);
    let end = put_numbers(numbers, out, start);
    out[end] = b'\n';
    end + 1
}

// `refused`, the number, then the place if there is one. The line's length.
fn put_refused(told: Particulars, out: &mut [u8]) -> usize
    requires { 71 ≤ length out.old }
    ensures { (result ≡ length (line (ascii "refused") (numbers_of told)))
        × (out.new ≡ sets out.old 0 (line (ascii "refused") (numbers_of told))) × (result ≤ length out.old) }
{
    let number = told.number;
    match told.place {
        Place::Nowhere => put_line(b"refused", &[number], out),
        Place::Index(index) => put_line(b"refused", &[number, index], out),
        Place::Test {
            row,
            constraint,
            ..
        } => put_line(b"refused", &[number, row, constraint], out),
    }
}

// The line of an input that does not clear. The line's length.
fn put_unclear(unclear: Unclear, out: &mut [u8]) -> usize
    requires { 71 ≤ length out.old }
    ensures { (result ≡ length (text_of (Err unclear)))
        × (out.new ≡ sets out.old 0 (text_of (Err unclear))) × (result ≤ length out.old) }
{
    match unclear {
        Unclear::Refused(refusal) => put_refused(refusals::told(refusal), out),
        Unclear::TooLong => put_word(b"too long\n", out),
    }
}

// The line of an answer, at the start of `out`, which is otherwise as it was. The line's length.
pub fn text(answer: Result<Report, Unclear>, out: &mut [u8; 80]) -> usize
    requires { length out.old ≡ 80 }
    ensures value { result ≡ length (text_of answer) }
    ensures out_after { out.new ≡ text_of answer ++ drop result out.old }
{
    match answer {
        Ok(report) => put_line(b"accepted", &[report.batches, report.tests], out),
        Err(unclear) => put_unclear(unclear, out),
    }
}
