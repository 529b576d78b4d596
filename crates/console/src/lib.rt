// What the programs ask of the system: all of an input, a number among the arguments, printing, complaining. The contracts of the C library's
// calls, which std reaches, are assumed.
#![tactic(auto)]

ghost use Rattle.std.specs.Prelude.{◌≡◌, ◌≤◌, IfOk, IfSome, MatchResult, length};
ghost use Rattle.io.specs.Counts.{IsPrefixLen};
ghost use Rattle.parsing.specs.Numbers.{lines_in, stored};
ghost use Rattle.console.specs.Listings.{listing, Taken};

use std::env::{Env, FillError};
use std::fs;
use std::fs::Files;
use std::io::{Print, Read, Stderr};

// A read failed after so many bytes, which stand at the front of the buffer.
#[derive(Clone, Copy, PartialEq, Eq, Debug)]
pub struct ReadFailed {
    pub count: usize,
}

// Reads until the buffer is full, the input ends or a read fails; how many bytes stand at the front of the buffer then.
pub fn take<R: Read>(input: &mut R, bytes: &mut [u8]) -> Result<usize, ReadFailed>
    ensures { MatchResult result (λ n. IsPrefixLen n bytes.new) (λ e. IsPrefixLen e.count bytes.new) }
{
    let mut done: usize = 0;
    // A read takes as many bytes as the system likes.
    while done < bytes.len() {
        let Ok(more) = input.read(&mut bytes[done..]) else {
            return Err(ReadFailed { count: done });
        };
        if more == 0 {
            break;
        }
        done += more;
    }
    Ok(done)
}

// All of a file that is named, up to the buffer's length. A name that is no UTF-8 text is a file that cannot be read.
fn take_file<R: Files>(rt: &R, name: &[u8], bytes: &mut [u8]) -> Option<usize>
    ensures { IfSome result (λ n. IsPrefixLen n bytes.new) }
{
    let path = str::from_utf8(name).ok()?;
    let mut file = fs::open(rt, path).ok()?;
    take(&mut file, bytes).ok()
}

// Why a file gives no row numbers: it cannot be read, or a line of it is no number.
#[derive(Clone, Copy, PartialEq, Eq, Debug)]
pub enum ListFault {
    Unreadable,
    Unsound,
}

fn listed(bytes: &[u8], list: &mut [u64]) -> Result<usize, ListFault>
    ensures within { IfOk result (λ n. IsPrefixLen n list.new) }
    ensures answer { result ≡ listing (lines_in (length list.old) bytes.now) }
    ensures list { list.new ≡ stored (lines_in (length list.old) bytes.now) list.old }
{
    parsing::list(bytes, list).ok_or(ListFault::Unsound)
}

// How many row numbers stand at the front of the list: those in the file that an argument names, one a line, as many as the list holds. A line has
// at most 20 digits, so the numbers of 1,025 lines stand in the first 21,525 bytes.
pub fn take_rows<R: Env + Files>(rt: &R, place: usize, list: &mut [u64]) -> Result<usize, ListFault>
    ensures within { IfOk result (λ n. IsPrefixLen n list.new) }
    ensures taken { Taken list.old result list.new }
{
    let mut name = [0u8; 4096];
    let m = argument(rt, place, &mut name);
    let mut bytes = [0u8; 65536];
    let n = take_file(rt, &name[..m], &mut bytes).ok_or(ListFault::Unreadable)?;
    listed(&bytes[..n], list)
}

// Puts an argument at the front of the buffer: its length, or 0 where there is none or the buffer is shorter.
fn argument<R: Env>(rt: &R, place: usize, buffer: &mut [u8]) -> usize
    ensures { result ≤ length buffer.new }
{
    rt.arg(place, buffer).unwrap_or(0)
}

// Whether there is an argument at the place. Nothing is promised, as of `number`.
pub fn is_given<R: Env>(rt: &R, place: usize) -> bool {
    let mut word = [0u8; 1];
    !matches!(rt.arg(place, &mut word), Err(FillError::NotPresent))
}

// The number that an argument is, or that it is none. Nothing is promised: which bytes the system hands in no contract can say, and any number is
// that of some bytes. What the bytes are worth is the contract of `number_in`.
pub fn number<R: Env>(rt: &R, place: usize) -> Option<u64> {
    let mut word = [0u8; 32];
    let n = argument(rt, place, &mut word);
    parsing::number_in(&word[..n])
}

// Prints the front of a text, or nothing where the text is not so long. Nothing is promised: no contract can say what the system takes.
pub fn print<P: Print>(out: &P, errors: &Stderr, text: &[u8], length: u64) {
    if length <= text.len() as u64 {
        let n = length as usize;
        if out.write_all(&text[..n]).is_err() {
            complain(errors, b"standard output cannot be written\n");
        }
    }
}

// Writes a line to standard error. Nothing is promised, as of `print`.
pub fn complain(errors: &Stderr, line: &[u8]) {
    let _ = errors.write_all(line);
}
