// The flags of yanked sets (RULES, "When a card is active"). The cards of each owner are linked first, so that no number asks for a walk of all cards, and the names of the directory are indexed, so that no name asks for a walk of all entries.
ghost use Rattle.std.specs.Prelude.{◌≡◌, suc, ◌≤◌, ◌<◌, length, get_or, set, replicate};
ghost use Rattle.library_yanks.specs.Flags.{backward, owned, acted_all, from_top, top, settled_flags, Linked};

use crate::marks::act_card;
use library::{MOST_ENTRIES, MOST_WORDS};
use library_image::{see, word_at};
use library_index::Index;

// most libraries have no more of YANK$$$
const FEW: usize = 4096;

const OWNERS: usize = 1024;

// The card at a place goes ahead of its owner's other cards.
fn put_link(first: &mut [u64; OWNERS], link: &mut [u64], owner: usize, at: usize)
    requires { (at < length link.old) × (at < 65536) }
    ensures first_after { first.new ≡ set first.old owner (suc at) }
    ensures link_after { link.new ≡ set link.old at (get_or first.old owner 0) }
{
    link[at] = word_at(first, owner);
    if owner < OWNERS {
        first[owner] = at as u64 + 1;
    }
}

// Each owner's first card, and each card's next, as its place and one more; 0 where there is none, so that cleared places link nothing.
fn link_cards(cards: &[u64], link: &mut [u64]) -> [u64; OWNERS]
    requires { (length cards.now ≤ 65536) × (length cards.now ≤ length link.old) }
    ensures { Linked cards.now result link.new }
{
    let mut first = [0; OWNERS];
    let mut at = 0;
    // a walk from card to card
    while at < cards.len() {
        let c = see(cards, at);
        put_link(&mut first, link, c.owner as usize, at);
        at = c.next;
    }
    first
}

// The cards of one owner, along their links.
fn act_owner(
    index: &Index,
    cards: &[u64],
    first: &[u64; OWNERS],
    link: &[u64],
    n: usize,
    flags: &mut [u64],
)
    requires cards_len_bound { (length cards.now ≤ 65536) × ((length cards.now ≤ length link.now) × (n < 1024)) }
    requires linked { Linked cards.now first.now link.now }
    ensures { flags.new ≡ acted_all index.now.names.now cards.now (owned cards.now n (backward cards.now)) flags.old }
{
    let mut s = first[n] as usize;
    // a walk along links
    while 0 < s {
        let p = s - 1;
        act_card(index, cards, p, flags);
        s = link[p] as usize;
    }
}

// In places for N words of cards: the owners from the highest down. Not inlined, so that only one of the lengths takes of the stack.
#[inline(never)]
fn settle_in<const N: usize>(directory: &[u64], cards: &[u64], flags: &mut [u64])
    requires { (length cards.now ≤ N) × (N ≤ 65536) }
    ensures { flags.new ≡ from_top directory.now cards.now (top directory.now) (replicate (length flags.old) 0) }
{
    let index = Index::new(directory);
    let mut link = [0u64; N];
    let first = link_cards(cards, &mut link);
    words_lists::clear(flags);
    for n in (0..directory.len().min(MOST_ENTRIES)).rev() {
        act_owner(&index, cards, &first, &link, n + 1, flags);
    }
}

// Which sets are yanked: 1 in the flag of each, 0 in every other.
#[tactic(auto, using(std::proofs::lemmas::List::take_min), unfolding(crate::specs::Flags::settled_flags))]
pub fn settle(directory: &[u64], cards: &[u64], flags: &mut [u64])
    ensures { flags.new ≡ settled_flags directory.now cards.now (length flags.old) }
{
    let cards = &cards[..MOST_WORDS.min(cards.len())];
    // fewer places are sooner cleared
    if cards.len() <= FEW {
        settle_in::<FEW>(directory, cards, flags);
    } else {
        settle_in::<MOST_WORDS>(directory, cards, flags);
    }
}
