// A slot for each key: each owner has one for every number up to its highest, those of all owners stand one after another, and each key marks its own. Where none comes to a marked
// one no two keys are the same. That needs no proof of where slots begin: at worst two keys would come to one slot, and the tree would answer.
ghost use Rattle.std.specs.Prelude.{◌≡◌, true, ◌<◌, length, IfSome};
ghost use Rattle.library_index_twice.specs.Twice.{first_twice};
ghost use Rattle.library_index_twice.specs.Slots.{slot_of};

// a key is an owner times this, and a number
const NUMBERS: u64 = 0o1000000;

// 0 to 1,023
const OWNERS: usize = 1024;

const SLOTS: usize = 65536;

// The owner of this key has a slot for its number.
fn ask(counts: &mut [u32; OWNERS], key: u64) {
    let owner = (key / NUMBERS) as usize;
    if owner < OWNERS && u64::from(counts[owner]) <= key % NUMBERS {
        counts[owner] = (key % NUMBERS + 1) as u32;
    }
}

// How many slots each owner asks for.
fn ask_all(counts: &mut [u32; OWNERS], keys: &[u64]) {
    for key in keys {
        ask(counts, *key);
    }
}

// From how many slots each owner asks for to where they begin; whether there is room for all.
fn add_up(starts: &mut [u32; OWNERS]) -> bool {
    let mut sum: u32 = 0;
    for start in starts.iter_mut() {
        let count = *start;
        if SLOTS as u32 - sum < count {
            return false;
        }
        *start = sum;
        sum += count;
    }
    true
}

// A key's slot, if it has one.
fn slot_of(starts: &[u32; OWNERS], key: u64) -> Option<usize>
    ensures upper_bound { IfSome result (λ s. s < 65536) }
    ensures value { result ≡ slot_of starts.now key }
{
    let start = starts.get((key / NUMBERS) as usize)?;
    let slot = u64::from(*start) + key % NUMBERS;
    (slot < SLOTS as u64).then_some(slot as usize)
}

// Whether each key comes to a slot that no key ahead has marked.
fn marks_differ(keys: &[u64], starts: &[u32; OWNERS], marks: &mut [bool; SLOTS]) -> bool
    ensures { result ≡ true → length keys.now ≡ first_twice keys.now }
{
    for key in keys {
        let Some(slot) = slot_of(starts, *key) else {
            return false;
        };
        if marks[slot] {
            return false;
        }
        marks[slot] = true;
    }
    true
}

// Whether slots show that no key stands twice.
pub(crate) fn slots_differ(keys: &[u64]) -> bool
    ensures { result ≡ true → length keys.now ≡ first_twice keys.now }
{
    let mut starts = [0u32; OWNERS];
    ask_all(&mut starts, keys);
    add_up(&mut starts) && marks_differ(keys, &starts, &mut [false; SLOTS])
}
