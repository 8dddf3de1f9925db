// The one program (document 01, "The board file"): a raw table and a board file on standard input, one line on standard
// output. Where the input cannot be read or the line not written, a line on standard error says so, and the exit status
// is 0 as it is with an answer.
#![tactic(auto)]

ghost use Rattle.std.specs.Prelude.{◌≡◌, ◌-◌, ◌<◌, ◌≤◌, IfOk, length, take, drop};
ghost use Rattle.std.specs.Io.KnownBytes.{Consumes, IsAtEnd, ReadConsumes};
ghost use Rattle.clear.specs.Reading.{ended_by};

use std::io;
use std::io::{Read, Write};

// One call of `read`, into `buf` from `done` on: what was read before is kept, and no byte of the input is lost.
fn read_on<R: Read>(input: &mut R, buf: &mut [u8], done: usize) -> io::Result<usize>
    requires { done ≤ length buf.old }
    ensures moved { IfOk result (λ more. more ≤ length buf.old - done) }
    ensures buf_unchanged { take done buf.new ≡ take done buf.old }
    ensures bytes { ReadConsumes (R.remaining input.old) (R.remaining input.new) result (drop done buf.new) }
{
    input.read(&mut buf[done..])
}

// What the input is where a call brought no byte: `read` answers 0 at the end, and an error where it failed.
fn ended(got: io::Result<usize>, done: usize) -> io::Result<usize>
    ensures { result ≡ ended_by got done }
{
    match got {
        Ok(_) => Ok(done),
        Err(error) => Err(error),
    }
}

// Reads until the input ends, `buf` is full or a call fails. The number of bytes read: all that the input still had, or
// as many as `buf` holds.
#[tactic(auto, using(crate::proofs::Reading::more_read))]
fn read_all<R: Read>(input: &mut R, buf: &mut [u8]) -> io::Result<usize>
    ensures within { IfOk result (λ n. n ≤ length buf.new) }
    ensures bytes { IfOk result (λ n. Consumes (R.remaining input.old) (R.remaining input.new) (take n buf.new)) }
    ensures end { IfOk result (λ n. n < length buf.new → IsAtEnd (R.remaining input.new)) }
{
    let mut done = 0;
    while done < buf.len() {
        match read_on(input, buf, done) {
            Ok(more) if 0 < more => done += more,
            got => return ended(got, done),
        }
    }
    Ok(done)
}

// A line on standard error. Where that takes nothing, there is no other place to say so.
fn complain(rt: &HostRuntime, line: &str) {
    let _ = eprintln!(rt; "{line}");
}

fn main(rt: HostRuntime) {
    // One byte more than the longest input: so many bytes are too long, whatever follows them.
    let mut bytes = [0u8; clear_answer::LONGEST + 1];
    let Ok(read) = read_all(&mut rt.stdin(), &mut bytes) else {
        complain(&rt, "clear: standard input cannot be read");
        return;
    };
    let answer = clear_answer::clear(&bytes[..read]);
    let mut line = [0u8; 80];
    let length = clear_line::text(answer, &mut line);
    if rt.stdout().write_all(&line[..length]).is_err() {
        complain(&rt, "clear: standard output cannot be written");
    }
}
