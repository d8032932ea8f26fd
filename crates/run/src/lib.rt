// The correction run: units, corrections, and the stream as a whole.
#![tactic(auto)]

mod card;
mod carry;
mod desk;
mod fixes;
mod gap;
mod load;
mod marks;
mod obey;
mod put;
mod ranges;
mod runs;
mod seek;
mod settle;
mod starts;
mod streams;
mod texts;
mod yanks;

ghost use Rattle.std.specs.Prelude.{◌≡◌, length};
ghost use Rattle.run_meaning.specs.Run.{running, ran, run_into};

use crate::runs::run_stream;
pub use run_meaning::{RunRefused, Why, ran_number, ran_value, why_number};

// The correction run: the new library is written to the space where the old one and the stream are accepted.
pub fn run(old: &[u64], stream: &[u8], space: &mut [u64]) -> Result<usize, RunRefused>
    ensures answer { result ≡ ran (running old.now stream.now (length space.old)) }
    ensures space_after { space.new ≡ run_into (running old.now stream.now (length space.old)) space.old }
{
    library_check::check(old)?;
    run_stream(old, stream, space)
}
