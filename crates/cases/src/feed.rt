// Standard input, read 64 KiB at a time.
ghost use Rattle.std.specs.Prelude.{◌≡◌, ◌<◌, ◌≤◌, IfOk, OnErr, IsSome, IfSome};

use crate::op::Op;
use crate::space::{front, whole_words};
use cases_sums::Head;
use std::io;
use std::io::Read;

// the lengths of the arrays: what is read at a time, and a case's blobs as words (two images, each one word longer than a library may be) and as bytes
pub const INPUT: usize = 65536;

pub const WORDS: usize = 131074;

pub const BYTES: usize = 262400;

// What was read and is not yet taken stands from `at` to `end` in the input array.
#[derive(Clone, Copy, PartialEq, Eq)]
pub struct Rest {
    pub at: usize,
    pub end: usize,
}

// There is no rest once more was asked for than the input had.
#[derive(Drop)]
pub struct Feed<'a, R> {
    pub reader: &'a mut R,
    pub input: &'a mut [u8; INPUT],
    pub rest: Option<Rest>,
}

impl<'a, R: Read> Feed<'a, R> {
    pub fn start(reader: &'a mut R, input: &'a mut [u8; INPUT]) -> Feed<'a, R> {
        Feed {
            reader,
            input,
            rest: Some(Rest { at: 0, end: 0 }),
        }
    }

    // What a read gives. The one error is that of the read; the array's bytes may then be any.
    fn more(&mut self) -> io::Result<Option<Rest>>
        ensures { IfOk result (λ o. IfSome o (λ r. r.at < r.end × r.end ≤ 65536)) }
    {
        let input = &mut *self.input;
        let n = self.reader.read(input)?;
        Ok(if n == 0 {
            None
        } else {
            Some(Rest { at: 0, end: n })
        })
    }

    // A rest that has a byte, after a read where there was none left; or none. Only that read can fail.
    pub fn ready(&mut self) -> io::Result<Option<Rest>>
        ensures within { IfOk result (λ o. IfSome o (λ r. r.at < r.end × r.end ≤ 65536)) }
        ensures kept { IfOk result (λ o. self.new.rest ≡ o) }
        ensures not_over { OnErr result (IsSome self.old.rest) }
        ensures no_byte { OnErr result (IfSome self.old.rest (λ r. r.at < r.end → 65536 < r.end)) }
    {
        let Some(rest) = self.rest else {
            return Ok(None);
        };
        if rest.at < rest.end && rest.end <= INPUT {
            return Ok(Some(rest));
        }
        let rest = self.more()?;
        self.rest = rest;
        Ok(rest)
    }

    // The next byte, or none where the input has ended.
    fn next(&mut self) -> io::Result<Option<u8>> {
        let Some(rest) = self.ready()? else {
            return Ok(None);
        };
        self.rest = Some(Rest {
            at: rest.at + 1,
            end: rest.end,
        });
        Ok(Some(self.input[rest.at]))
    }

    // Fills `out` from the input.
    pub fn take_bytes(&mut self, out: &mut [u8]) -> io::Result<()> {
        for x in out.iter_mut() {
            let Some(b) = self.next()? else {
                return Ok(());
            };
            *x = b;
        }
        Ok(())
    }

    // Fills `out` from the input, eight bytes a word, the lowest first.
    fn take_words(&mut self, out: &mut [u64]) -> io::Result<()> {
        let mut eight = [0u8; 8];
        for x in out.iter_mut() {
            self.take_bytes(&mut eight)?;
            *x = cases_sums::word_of(&eight);
        }
        Ok(())
    }

    // Passes over n bytes.
    fn skip(&mut self, n: usize) -> io::Result<()> {
        for _ in 0..n {
            if self.next()?.is_none() {
                return Ok(());
            }
        }
        Ok(())
    }

    // n bytes into the front of `bytes`, or passed over where they do not fit.
    fn load_bytes(&mut self, n: usize, bytes: &mut [u8]) -> io::Result<()> {
        match bytes.get_mut(..n) {
            Some(out) => self.take_bytes(out),
            None => self.skip(n),
        }
    }

    // n bytes as words into the front of `words`, or passed over where they do not fit or are no whole words.
    fn load_words(&mut self, n: usize, words: &mut [u64]) -> io::Result<()> {
        if let Some(count) = whole_words(n) {
            if let Some(out) = words.get_mut(..count) {
                return self.take_words(out);
            }
        }
        self.skip(n)
    }

    // Two images, the second behind the first.
    fn load_images(&mut self, head: Head, words: &mut [u64]) -> io::Result<()> {
        let n = front(head.first / 8, words);
        self.load_words(head.first, words)?;
        self.load_words(head.second, &mut words[n..])
    }

    // A case's two blobs: the first as words where its op reads an image or a text, as bytes for any other op; the second, a stream, as bytes; both as words where
    // its op reads two images.
    pub fn load(
        &mut self,
        head: Head,
        words: &mut [u64; WORDS],
        bytes: &mut [u8; BYTES],
    ) -> io::Result<()> {
        match Op::try_from(head.op) {
            Ok(Op::Check | Op::Run | Op::Compile | Op::Expand) => {
                self.load_words(head.first, words)?;
                self.load_bytes(head.second, bytes)
            }
            Ok(Op::Merge) => self.load_images(head, words),
            _ => {
                self.load_bytes(head.first, bytes)?;
                self.skip(head.second)
            }
        }
    }
}
