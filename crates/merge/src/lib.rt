// Two libraries made one: each part of the second follows that part of the first, and the numbers in its history bytes rise by the first's directory count (RULES, "The merge"). Both are
// checked; then a name that both have, the limits and the room are looked at; then the words are put, and the second's numbers raised where they stand.
#![tactic(auto)]

mod counted;
mod parts;
mod put;

ghost use Rattle.std.specs.Prelude.{◌≡◌, length};
ghost use Rattle.library.specs.Readable.{Readable};
ghost use Rattle.merge_meaning.specs.Merge.{merging, merged, merge_into};
ghost use Rattle.merge.specs.Words.{WithinBoth, MergesSound, MergesApart};

use crate::counted::count_cards;
use crate::parts::Parted;
use crate::put::{TWICE, put_merged};
use library::DIRECTORY;
pub use merge_meaning::{MergeRefused, merged_number, merged_value, merged_which};
use merge_names::shared_name;

// Whether the two together pass no limit.
fn within_both(a: &Parted, b: &Parted) -> bool
    ensures { WithinBoth a.now.image.now b.now.image.now result }
{
    let words = a.image.len() + b.image.len() - TWICE;
    let entries = a.parts.names + b.parts.names - DIRECTORY - DIRECTORY;
    let decks = (a.parts.cards - a.parts.names) + (b.parts.cards - b.parts.names) - 1;
    let cards = count_cards(a.image, a.parts.cards) + count_cards(b.image, b.parts.cards);
    library::within_limits(entries, decks, cards, words)
}

// Where no name is common and no limit is passed.
fn merge_apart(a: &Parted, b: &Parted, space: &mut [u64]) -> Result<usize, MergeRefused>
    ensures { MergesApart a.now.image.now b.now.image.now space.old space.new result }
{
    let words = a.image.len() + b.image.len() - TWICE;
    if space.len() < words {
        return Err(MergeRefused::Space);
    }
    put_merged(a, b, space);
    Ok(words)
}

// Two images that the check accepted.
fn merge_sound(first: &[u64], second: &[u64], space: &mut [u64]) -> Result<usize, MergeRefused>
    requires { Readable first.now × Readable second.now }
    ensures { MergesSound first.now second.now space.old space.new result }
{
    let a = Parted::new(first);
    let b = Parted::new(second);
    let shared = shared_name(a.directory(), b.directory());
    let within = within_both(&a, &b);
    if shared != 0 {
        return Err(MergeRefused::Shared(shared));
    }
    if !within {
        return Err(MergeRefused::Limit);
    }
    merge_apart(&a, &b, space)
}

// The first library followed by the second, in the space; a refusal leaves the space as it was.
pub fn merge(first: &[u64], second: &[u64], space: &mut [u64]) -> Result<usize, MergeRefused>
    ensures answer { result ≡ merged (merging first.now second.now (length space.old)) }
    ensures space { space.new ≡ merge_into (merging first.now second.now (length space.old)) space.old }
{
    library_check::check(first).map_err(MergeRefused::First)?;
    library_check::check(second).map_err(MergeRefused::Second)?;
    merge_sound(first, second, space)
}
