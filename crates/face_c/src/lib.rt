// What C calls, by its name: each export is the function of that name in `face`, with the same contract.
#![tactic(auto)]

ghost use Rattle.std.specs.Prelude.{◌≡◌, length};
ghost use Rattle.keeper_card.specs.Naming.{naming, told, show_into, told_number, told_value};
ghost use Rattle.library_fresh.specs.Fresh.{freshing, fresh_into, begun_number, begun_value};
ghost use Rattle.keeper_directory.specs.Keeper.{listing};
ghost use Rattle.library.specs.Check.{check, checked, checked_number, checked_place};
ghost use Rattle.run_meaning.specs.Run.{running, ran, run_into, ran_number, ran_value};
ghost use Rattle.merge_meaning.specs.Merge.{merging, merged, merge_into, merged_number, merged_value, merged_which};
ghost use Rattle.compile.specs.Compile.{compiling, compiled, compile_into, compiled_number, compiled_first, compiled_second};
ghost use Rattle.words_packing.specs.Pack.{packing_eights, unpacking_eights, pack_eights_into, unpack_eights_into, packing_number, packing_value};

// Words of eight bytes, packed.
#[unsafe(no_mangle)]
pub extern "C" fn galdwist_pack(words: &[u8], out: &mut [u8], written: &mut u64) -> u64
    ensures number { result ≡ packing_number (packing_eights words.now (length out.old)) }
    ensures space { out.new ≡ pack_eights_into words.now out.old }
    ensures value { written.new ≡ packing_value (packing_eights words.now (length out.old)) }
{
    face::galdwist_pack(words, out, written)
}

// Packed bytes, as words of eight bytes.
#[unsafe(no_mangle)]
pub extern "C" fn galdwist_unpack(bytes: &[u8], out: &mut [u8], written: &mut u64) -> u64
    ensures number { result ≡ packing_number (unpacking_eights bytes.now (length out.old)) }
    ensures space { out.new ≡ unpack_eights_into bytes.now out.old }
    ensures value { written.new ≡ packing_value (unpacking_eights bytes.now (length out.old)) }
{
    face::galdwist_unpack(bytes, out, written)
}

// The library check: the row of the first fault, and its word; 0 and 0 where the image is a library.
#[unsafe(no_mangle)]
pub extern "C" fn galdwist_check(image: &[u64], place: &mut u64) -> u64
    ensures number { result ≡ checked_number (checked (check image.now)) }
    ensures value { place.new ≡ checked_place (checked (check image.now)) }
{
    face::galdwist_check(image, place)
}

// A correction run: the old library and the stream, the new library into the space; its words, or the line at fault.
#[unsafe(no_mangle)]
pub extern "C" fn galdwist_run(
    old: &[u64],
    stream: &[u8],
    space: &mut [u64],
    value: &mut u64,
) -> u64
    ensures number { result ≡ ran_number (ran (running old.now stream.now (length space.old))) }
    ensures space { space.new ≡ run_into (running old.now stream.now (length space.old)) space.old }
    ensures value { value.new ≡ ran_value (ran (running old.now stream.now (length space.old))) }
{
    face::galdwist_run(old, stream, space, value)
}

// The full compile file: lines and calls, or the card at fault, or the word of a library that is refused.
#[unsafe(no_mangle)]
pub extern "C" fn galdwist_compile(
    image: &[u64],
    out: &mut [u8],
    first: &mut u64,
    second: &mut u64,
) -> u64
    ensures number { result ≡ compiled_number (compiled (compiling image.now (length out.old))) }
    ensures space { out.new ≡ compile_into (compiling image.now (length out.old)) out.old }
    ensures first { first.new ≡ compiled_first (compiled (compiling image.now (length out.old))) }
    ensures second { second.new ≡ compiled_second (compiled (compiling image.now (length out.old))) }
{
    face::galdwist_compile(image, out, first, second)
}

// The first library followed by the second, into the space: its words, or the place of the fault; and which library is at fault.
#[unsafe(no_mangle)]
pub extern "C" fn galdwist_merge(
    first: &[u64],
    second: &[u64],
    space: &mut [u64],
    value: &mut u64,
    which: &mut u64,
) -> u64
    ensures number { result ≡ merged_number (merged (merging first.now second.now (length space.old))) }
    ensures space { space.new ≡ merge_into (merging first.now second.now (length space.old)) space.old }
    ensures value { value.new ≡ merged_value (merged (merging first.now second.now (length space.old))) }
    ensures which { which.new ≡ merged_which (merged (merging first.now second.now (length space.old))) }
{
    face::galdwist_merge(first, second, space, value, which)
}

// The fresh library: the words written, or 0 where it is longer than the space.
#[unsafe(no_mangle)]
pub extern "C" fn galdwist_fresh(space: &mut [u64], value: &mut u64) -> u64
    ensures number { result ≡ begun_number (freshing (length space.old)) }
    ensures space { space.new ≡ fresh_into space.old }
    ensures value { value.new ≡ begun_value (freshing (length space.old)) }
{
    face::galdwist_fresh(space, value)
}

// The directory, a row of 11 bytes for each entry: the count of entries, or the place of the fault, or 0.
#[unsafe(no_mangle)]
pub extern "C" fn galdwist_directory(image: &[u64], rows: &mut [u8], value: &mut u64) -> u64
    ensures number { result ≡ told_number (told (listing image.now (length rows.old))) }
    ensures space { rows.new ≡ show_into (listing image.now (length rows.old)) rows.old }
    ensures value { value.new ≡ told_value (told (listing image.now (length rows.old))) }
{
    face::galdwist_directory(image, rows, value)
}

// The name of a card: the bytes written, or the place of the fault, or 0.
#[unsafe(no_mangle)]
pub extern "C" fn galdwist_card(
    image: &[u64],
    owner: u64,
    seq: u64,
    out: &mut [u8],
    value: &mut u64,
) -> u64
    ensures number { result ≡ told_number (told (naming image.now owner seq (length out.old))) }
    ensures space { out.new ≡ show_into (naming image.now owner seq (length out.old)) out.old }
    ensures value { value.new ≡ told_value (told (naming image.now owner seq (length out.old))) }
{
    face::galdwist_card(image, owner, seq, out, value)
}
