// The check of an image (RULES, "The check"): rows 1, 2, 3, 4, then 5 and 6 together, then 7, 8, 10, 9.
ghost use Rattle.std.specs.Prelude.{◌≡◌, ◌≤◌, length};
ghost use Rattle.library.specs.Check.{checked};
ghost use Rattle.library_tables.specs.Found.{Sized, Tabled};
ghost use Rattle.library_check.specs.Rows.{RowBits, AfterDecks, AfterCards, AfterRows};

use crate::bits::bits_fault;
use crate::deck_cards::{cards_end, decks_fault};
use crate::twice::twice_fault;
use crate::yanks::yanks_fault;
use library::{DIRECTORY, Fault, Refusal, refuse};

// a flag for each directory number, 0 to 1,023
const FLAGS: usize = 1024;

// Row 9, under the flags of the cards of YANK$$$, which end at `end`. Not inlined, so that the check does not hold the flags for other rows.
#[inline(never)]
fn stored_fault(image: &[u64], directory: &[u64], from: usize, end: usize) -> Option<usize>
    requires { (from ≤ end) × (end ≤ length image.now) }
    ensures { RowBits directory.now image.now from end result }
{
    let mut flags = [0u64; FLAGS];
    library_yanks::settle(directory, &image[from..end], &mut flags);
    bits_fault(image, from, &flags)
}

// Rows 8, 10 and 9.
fn check_yanks(image: &[u64], directory: &[u64], list: &[u64], from: usize) -> Result<(), Refusal>
    requires { from ≤ length image.now }
    ensures { AfterDecks directory.now list.now image.now from result }
{
    let end = cards_end(image, from);
    refuse(Fault::Yank, yanks_fault(image, directory, list, from, end))?;
    refuse(Fault::Twice, twice_fault(image, from))?;
    refuse(Fault::Bit, stored_fault(image, directory, from, end))
}

// Rows 7 to 10 of an image with this directory and deck list, whose cards stand from `from` on.
fn check_decks(image: &[u64], directory: &[u64], list: &[u64], from: usize) -> Result<(), Refusal>
    requires { from ≤ length image.now }
    ensures { AfterCards directory.now list.now image.now from result }
{
    refuse(Fault::Decks, decks_fault(image, directory, list, from))?;
    check_yanks(image, directory, list, from)
}

fn check_cards(image: &[u64]) -> Result<(), Refusal>
    requires sized { Sized image.now }
    requires tabled { Tabled image.now }
    ensures { AfterRows image.now result }
{
    let first = DIRECTORY + library_tables::entries_of(image);
    let from = first + library_tables::decks_of(image);
    check_decks(image, &image[DIRECTORY..first], &image[first..from], from)
}

// The check of an image.
pub fn check(image: &[u64]) -> Result<(), Refusal>
    ensures { result ≡ checked (Rattle.library.specs.Check.check image.now) }
{
    library_cards::first_rows(image)?;
    check_cards(image)
}
