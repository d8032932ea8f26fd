// Lists of words and of bytes: searched, cleared, put over others.
ghost use Rattle.std.specs.Prelude.{◌≡◌, ◌+◌, leb, length, replicate};
ghost use Rattle.words.specs.Base.{member};
ghost use Rattle.words_lists.specs.Over.{over};

// Whether w is one of the words.
pub fn stands(list: &[u64], w: u64) -> bool
    ensures { result ≡ member w list.now }
{
    // `contains` looks at four a turn, and takes half as long again
    for v in list {
        if *v == w {
            return true;
        }
    }
    false
}

pub fn clear(list: &mut [u64])
    ensures { list.new ≡ replicate (length list.old) 0 }
{
    list.fill(0);
}

// Whether n elements from a place on end within the room, told by subtraction, since the sum could overflow.
fn within(n: usize, at: usize, room: usize) -> bool
    ensures { result ≡ leb (at + n) room }
{
    n <= room && at <= room - n
}

// One list's elements over another's, from a place on; nothing where they reach beyond its end.
#[tactic(auto, using(std::proofs::lemmas::List::Edits::paste_more))]
pub fn put<T: Copy>(from: &[T], out: &mut [T], at: usize)
    ensures { out.new ≡ over at from.now out.old }
{
    if !within(from.len(), at, out.len()) {
        return;
    }
    // `copy_from_slice` would be a call of memmove, which the archive for C has not
    for i in 0..from.len() {
        out[at + i] = from[i];
    }
}
