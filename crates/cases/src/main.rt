// A test program: answers the cases on standard input with the engine, one line for each (tests/CASES.md).
//
//     op:u8  room:u32  n1:u32  n2:u32  blob1[n1]  blob2[n2]        numbers are little-endian
//
// An answer is four decimals with one blank between: three of the call, and a sum over the whole space that was lent to it. A case that the program
// does not answer has a line that says why in the answer's place.
#![tactic(auto)]

mod answer;
mod feed;
mod line;
mod op;
mod ops;
mod space;

use answer::Unanswered;
use cases_sums::Head;
use feed::{BYTES, Feed, INPUT, WORDS};
use ops::{FILE, LIBRARY};
use std::io;
use std::io::Read;

// Reads a case, its head and then its blobs. The feed is over when the input has ended within it.
fn read<R: Read>(
    feed: &mut Feed<'_, R>,
    words: &mut [u64; WORDS],
    bytes: &mut [u8; BYTES],
) -> io::Result<Head> {
    let mut head = [0; 13];
    feed.take_bytes(&mut head)?;
    let head = cases_sums::read_head(&head);
    feed.load(head, words, bytes)?;
    Ok(head)
}

// A proved loop has to end, and nothing says that the input does: the turns are more than any run uses up.
fn answer_all<R: Read>(
    rt: &impl Print,
    feed: &mut Feed<'_, R>,
    words: &mut [u64; WORDS],
    bytes: &mut [u8; BYTES],
    library: &mut [u64; LIBRARY],
    file: &mut [u8; FILE],
) -> io::Result<()> {
    for _ in 0..u64::MAX {
        if feed.ready()?.is_none() {
            return Ok(());
        }
        let head = read(feed, words, bytes)?;
        let answer = if feed.rest.is_none() {
            Err(Unanswered::Truncated)
        } else {
            ops::answer(head, words, bytes, library, file)
        };
        answer::write(rt, head.op, answer)?;
    }
    Ok(())
}

// The arrays are made once, and lent to every case. A read or a write that fails ends the program with its error.
fn main(rt: HostRuntime) -> io::Result<()> {
    let mut input = [0u8; INPUT];
    let mut words = [0u64; WORDS];
    let mut bytes = [0u8; BYTES];
    let mut library = [0u64; LIBRARY];
    let mut file = [0u8; FILE];
    answer_all(
        &rt,
        &mut Feed::start(&mut rt.stdin(), &mut input),
        &mut words,
        &mut bytes,
        &mut library,
        &mut file,
    )
}
