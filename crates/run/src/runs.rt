// A run on a library that the check accepted (RULES, "The run"): 19, then line by line, then 32.
ghost use Rattle.std.specs.Prelude.{◌≤◌, length};
ghost use Rattle.library.specs.Readable.{Readable};
ghost use Rattle.run.specs.Written.{RunsLines, RunsStream};

use crate::carry::finish;
use crate::load::load;
use crate::streams::obey_stream;
use crate::yanks::resettle;
use run_meaning::{RunRefused, Why};

// The longest stream, in bytes.
const STREAM: usize = 262144;

// In arrays of its own: the cards' words, the directory, the deck list, and the flags of the decks' numbers and of the yanked ones.
fn run_lines(old: &[u64], stream: &[u8], space: &mut [u64]) -> Result<usize, RunRefused>
    requires { Readable old.now × (length stream.now ≤ 262144) }
    ensures { RunsLines old.now stream.now space.old space.new result }
{
    let mut words = [0u64; 65536];
    let mut dir = [0u64; 1024];
    let mut names = [0u64; 256];
    let mut decks = [0u64; 1025];
    let mut flags = [0u64; 1025];
    let d = load(old, &mut words, &mut dir, &mut names, &mut decks);
    resettle(&mut words, &dir, &mut flags, d);
    let e = obey_stream(
        &mut words, &mut dir, &mut names, &mut decks, &mut flags, d, stream,
    )?;
    finish(&words, &dir, &names, e, space)
}

pub(crate) fn run_stream(old: &[u64], stream: &[u8], space: &mut [u64]) -> Result<usize, RunRefused>
    requires { Readable old.now }
    ensures { RunsStream old.now stream.now space.old space.new result }
{
    if STREAM < stream.len() {
        return Err(RunRefused::Stream(Why::Stream, 0));
    }
    run_lines(old, stream, space)
}
