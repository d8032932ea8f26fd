// The ops. One more is a kind of `Op` with its number, an arm of `answer`, and a function that lends the fronts of the arrays to the engine; none needs a proof file.
use crate::answer::{Numbers, Unanswered};
use crate::op::Op;
use crate::space::{Item, front, whole_words};
use cases_sums::Head;
use words_packing::{PackingRefused, packing_number, packing_value};

// the lengths of the arrays whose fronts are the room of a call
pub const LIBRARY: usize = 65536;

pub const FILE: usize = 182000;

// The words or bytes of a blob, where the array has so many.
fn lent<T>(n: usize, array: &[T]) -> Result<&[T], Unanswered> {
    array.get(..n).ok_or(Unanswered::Beyond)
}

// An image or a text of n bytes, which are whole words.
fn image(n: usize, words: &[u64]) -> Result<&[u64], Unanswered> {
    lent(whole_words(n).ok_or(Unanswered::Beyond)?, words)
}

// Lends the room to a call that gives its three numbers.
fn with_room<T: Item, F: FnOnce(&mut [T]) -> (u64, u64, u64)>(
    n: usize,
    array: &mut [T],
    call: F,
) -> Result<Numbers, Unanswered>
    requires { F.IsAlwaysCallable call }
{
    let room = array.get_mut(..n).ok_or(Unanswered::Beyond)?;
    T::fill(room);
    let (number, first, second) = call(room);
    Ok(Numbers {
        number,
        first,
        second,
        sum: T::sum(room),
    })
}

// Packs or unpacks, as the call does.
fn packing<F: FnOnce(&[u8], &mut [u8]) -> Result<usize, PackingRefused>>(
    head: Head,
    bytes: &[u8],
    file: &mut [u8],
    call: F,
) -> Result<Numbers, Unanswered>
    requires { F.IsAlwaysCallable call }
{
    let source = lent(head.first, bytes)?;
    with_room(head.room, file, |room| {
        let p = call(source, room);
        (packing_number(p), packing_value(p), 0)
    })
}

// How much a call put into the front of `out`.
fn put<T: Item>(number: u64, count: usize, out: &[T]) -> Numbers {
    Numbers {
        number,
        first: count as u64,
        second: 0,
        sum: T::sum(&out[..front(count, out)]),
    }
}

fn compress(head: Head, bytes: &[u8]) -> Result<Numbers, Unanswered> {
    let mut text = [0; 16];
    let c = words_text_compress::compress(lent(head.first, bytes)?, &mut text);
    Ok(put(
        words_text_compress::compressed_number(c),
        c.unwrap_or(0),
        &text,
    ))
}

fn expand(head: Head, words: &[u64]) -> Result<Numbers, Unanswered> {
    let mut line = [0; 80];
    let e = words_text_expand::expand(image(head.first, words)?, &mut line);
    Ok(put(words_text_expand::expanded_number(e), e.unwrap_or(0), &line))
}

fn line(head: Head, bytes: &[u8]) -> Result<Numbers, Unanswered> {
    Ok(crate::line::line(lent(head.first, bytes)?))
}

fn check(head: Head, words: &[u64]) -> Result<Numbers, Unanswered> {
    let c = library_check::check(image(head.first, words)?);
    Ok(Numbers {
        number: library::checked_number(c),
        first: library::checked_place(c),
        second: 0,
        sum: 0,
    })
}

fn run(
    head: Head,
    words: &[u64],
    bytes: &[u8],
    library: &mut [u64],
) -> Result<Numbers, Unanswered> {
    let old = image(head.first, words)?;
    let stream = lent(head.second, bytes)?;
    with_room(head.room, library, |room| {
        let r = run::run(old, stream, room);
        (run_meaning::ran_number(r), run_meaning::ran_value(r), 0)
    })
}

fn compile(head: Head, words: &[u64], file: &mut [u8]) -> Result<Numbers, Unanswered> {
    let image = image(head.first, words)?;
    with_room(head.room, file, |room| {
        let c = compile::compile(image, room);
        (
            compile::compiled_number(c),
            compile::compiled_first(c),
            compile::compiled_second(c),
        )
    })
}

// The second image stands behind the first.
fn merge(head: Head, words: &[u64], library: &mut [u64]) -> Result<Numbers, Unanswered> {
    let at = front(head.first / 8, words);
    let first = image(head.first, words)?;
    let second = image(head.second, &words[at..])?;
    with_room(head.room, library, |room| {
        let m = merge::merge(first, second, room);
        (
            merge_meaning::merged_number(m),
            merge_meaning::merged_value(m),
            merge_meaning::merged_which(m),
        )
    })
}

pub fn answer(
    head: Head,
    words: &[u64],
    bytes: &[u8],
    library: &mut [u64; LIBRARY],
    file: &mut [u8; FILE],
) -> Result<Numbers, Unanswered> {
    match Op::try_from(head.op)? {
        Op::Check => check(head, words),
        Op::Run => run(head, words, bytes, library),
        Op::Compile => compile(head, words, file),
        Op::Pack => packing(head, bytes, file, |source, room| {
            words_packing::pack_bytes(source, room)
        }),
        Op::Unpack => packing(head, bytes, file, |source, room| {
            words_packing::unpack_bytes(source, room)
        }),
        Op::Compress => compress(head, bytes),
        Op::Expand => expand(head, words),
        Op::Line => line(head, bytes),
        Op::Merge => merge(head, words, library),
    }
}
