// The compile file of an image: the check first, then the walk (RULES, "The compile file").
#![tactic(auto)]

ghost use Rattle.std.specs.Prelude.{◌≡◌, length};
ghost use Rattle.compile_walk.specs.TableView.{table_view};
ghost use Rattle.compile.specs.Compile.{compiling, compiled, compile_into, stop_number, compiled_number, compiled_first, compiled_second};
ghost use Rattle.compile.specs.Answer.{Compiles, CompilesImage};
ghost use Rattle.compile.specs.declared.CompileRefused.TheVariants.{Library as OfLibrary, Card as OfCard};

use compile_walk::{Counts, Halt, Stop, walk_decks};
use library::Refusal;
use library_image_decks::{TABLE, put_table};

// rows of the table, as numbers, which C is answered
const DONE: u64 = 0;

const NO_DECK: u64 = 40;

const NOT_COMMON: u64 = 41;

const DEEP: u64 = 42;

const MANY: u64 = 43;

const SPACE: u64 = 44;

// Why there is no compile file: the library is refused, or a card of it.
#[derive(Clone, Copy, PartialEq, Eq)]
pub enum CompileRefused {
    Library(Refusal),
    Card(Halt),
}

impl From<Refusal> for CompileRefused {
    ghost from_gives = { λ r e. e ≡ OfLibrary r };

    fn from(r: Refusal) -> CompileRefused {
        CompileRefused::Library(r)
    }
}

impl From<Halt> for CompileRefused {
    ghost from_gives = { λ h e. e ≡ OfCard h };

    fn from(h: Halt) -> CompileRefused {
        CompileRefused::Card(h)
    }
}

// The walk first only counts, so that a refusal at the last card has written nothing; then it writes.
fn compile_chosen(
    image: &[u64],
    table: &[u64],
    chosen: &[u64],
    out: &mut [u8],
) -> Result<Counts, CompileRefused>
    ensures { Compiles (table_view image.now table.now) (table_view image.now chosen.now) result out.old out.new }
{
    walk_decks(image, table, chosen, false, out)?;
    let written = walk_decks(image, table, chosen, true, out)?;
    Ok(written)
}

// All decks of a table.
fn compile_table(image: &[u64], table: &[u64], out: &mut [u8]) -> Result<Counts, CompileRefused>
    ensures { Compiles (table_view image.now table.now) (table_view image.now table.now) result out.old out.new }
{
    compile_chosen(image, table, table, out)
}

// An image that the check accepts.
fn compile_sound(image: &[u64], out: &mut [u8]) -> Result<Counts, CompileRefused>
    ensures { CompilesImage image.now result out.old out.new }
{
    let mut table = [0u64; TABLE];
    let n = put_table(image, &mut table);
    compile_table(image, &table[..n], out)
}

// The check of the image, then the walk.
pub fn compile(image: &[u64], out: &mut [u8]) -> Result<Counts, CompileRefused>
    ensures answer { result ≡ compiled (compiling image.now (length out.old)) }
    ensures space { out.new ≡ compile_into (compiling image.now (length out.old)) out.old }
{
    library_check::check(image)?;
    compile_sound(image, out)
}

fn stop_number(stop: Stop) -> u64
    ensures { result ≡ stop_number stop }
{
    match stop {
        Stop::NoDeck => NO_DECK,
        Stop::NotCommon => NOT_COMMON,
        Stop::Deep => DEEP,
        Stop::Many => MANY,
        Stop::Space => SPACE,
    }
}

// The table's number of an answer; 0 where the file was written.
pub fn compiled_number(c: Result<Counts, CompileRefused>) -> u64
    ensures { result ≡ compiled_number c }
{
    match c {
        Ok(_) => DONE,
        Err(CompileRefused::Library(refusal)) => library::fault_number(refusal.fault),
        Err(CompileRefused::Card(halt)) => stop_number(halt.stop),
    }
}

// Lines written, or the place in the library, or the card's owner.
pub fn compiled_first(c: Result<Counts, CompileRefused>) -> u64
    ensures { result ≡ compiled_first c }
{
    match c {
        Ok(counts) => counts.lines as u64,
        Err(CompileRefused::Library(refusal)) => refusal.place as u64,
        Err(CompileRefused::Card(halt)) => halt.owner,
    }
}

// Calls opened, or 0, or the card's number.
pub fn compiled_second(c: Result<Counts, CompileRefused>) -> u64
    ensures { result ≡ compiled_second c }
{
    match c {
        Ok(counts) => counts.calls as u64,
        Err(CompileRefused::Library(_)) => 0,
        Err(CompileRefused::Card(halt)) => halt.seq,
    }
}
