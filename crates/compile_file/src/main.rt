// The compile program (RULES, "The compile program"): a packed library on standard input; on standard output its compile file, or the line of its refusal.
#![tactic(auto)]

ghost use Rattle.std.specs.Prelude.{◌≡◌, ◌≤◌, ◌<◌, ◌++◌, length, drop, IfOk, OnErr};
ghost use Rattle.compile_file.specs.Written.{Wrote};
ghost use Rattle.words_packing.specs.Pack.{unpacking, unpacked};
ghost use Rattle.compile.specs.Compile.{compiling, program_of, after_unpacking, program};

mod line;

use crate::line::{put_refused, put_refused_card};
use compile::CompileRefused;
use std::io;
use std::io::Read;

// the most bytes of input, and the row of a longer one
const MOST: usize = 30720;

const OVER: u64 = 52;
// one byte more than is accepted, so that a longer input shows
const INPUT: usize = MOST + 1;
// 30,720 bytes hold so many words
const WORDS: usize = 4096;
// the space is for 720 lines, of 91 bytes each
const LINE: usize = 91;

const SPACE: usize = 720 * LINE;

// The compile file of an image, or the line of its refusal: how many bytes it takes.
fn put_file(image: &[u64], out: &mut [u8]) -> usize
    requires { length out.old ≡ 65520 }
    ensures { Wrote (program_of (compiling image.now 65520)) result out.old out.new }
{
    let answer = compile::compile(image, out);
    match answer {
        Ok(counts) => counts.lines * LINE,
        Err(CompileRefused::Library(refusal)) => {
            put_refused(compile::compiled_number(answer), refusal.place as u64, out)
        }
        Err(CompileRefused::Card(halt)) => {
            put_refused_card(compile::compiled_number(answer), halt.owner, halt.seq, out)
        }
    }
}

// The same of a packed library that is not too long.
fn put_packed(input: &[u8], words: &mut [u64], out: &mut [u8]) -> usize
    requires { (length words.old ≡ 4096) × (length out.old ≡ 65520) }
    ensures { Wrote (after_unpacking (unpacking input.now 4096) (unpacked input.now)) result out.old out.new }
{
    let answer = words_packing::unpack(input, words);
    match answer {
        Ok(n) => put_file(&words[..n], out),
        Err(_) => put_refused(words_packing::packing_number(answer), 0, out),
    }
}

// What the program makes of its input, the file or the line of a refusal: how many bytes it takes.
fn program(input: &[u8], out: &mut [u8; SPACE]) -> usize
    ensures value { result ≡ length (program input.now) }
    ensures out_after { out.new ≡ program input.now ++ drop (length (program input.now)) out.old }
{
    if MOST < input.len() {
        return put_refused(OVER, 0, out);
    }
    let mut words = [0u64; WORDS];
    put_packed(input, &mut words, out)
}

// All that is written is what `program` makes of the input.
fn write(rt: &impl Print, input: &[u8]) -> io::Result<()> {
    let mut out = [0u8; SPACE];
    let n = program(input, &mut out);
    rt.write_all(&out[..n])
}

// Reads until the buffer is full or the input ends: how many bytes it put at the buffer's start. The one error is that of a read; the buffer's bytes may
// then be any.
fn read_full<R: Read>(reader: &mut R, buf: &mut [u8]) -> io::Result<usize>
    ensures within { IfOk result (λ n. n ≤ length buf.new) }
    ensures not_empty { OnErr result (0 < length buf.old) }
{
    let mut done = 0;
    while done < buf.len() {
        let n = reader.read(&mut buf[done..])?;
        if n == 0 {
            break;
        }
        done += n;
    }
    Ok(done)
}

// A read or a write that fails ends the program with its error.
fn main(rt: HostRuntime) -> io::Result<()> {
    let mut input = [0u8; INPUT];
    let n = read_full(&mut rt.stdin(), &mut input)?;
    write(&rt, &input[..n])
}
