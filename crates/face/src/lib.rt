// What C calls (`face_c` exports it). Each function answers the table's number and sets its values through references, in both cases.
#![tactic(auto)]

ghost use Rattle.std.specs.Prelude.{◌≡◌, length};
ghost use Rattle.keeper_card.specs.Naming.{naming, told, show_into, told_number, told_value};
ghost use Rattle.library_fresh.specs.Fresh.{freshing, fresh_into, begun_number, begun_value};
ghost use Rattle.keeper_directory.specs.Keeper.{listing};
ghost use Rattle.library.specs.Check.{check, checked, checked_number, checked_place};
ghost use Rattle.run_meaning.specs.Run.{running, ran, run_into, ran_number, ran_value};
ghost use Rattle.merge_meaning.specs.Merge.{merging, merged, merge_into, merged_number, merged_value, merged_which};
ghost use Rattle.compile.specs.Compile.{compiling, compiled, compile_into, compiled_number, compiled_first, compiled_second};
ghost use Rattle.words_packing.specs.Pack.{packing_eights, unpacking_eights, pack_eights_into, unpack_eights_into, packing_number, packing_value};

// Words of eight bytes, packed.
pub fn galdwist_pack(words: &[u8], out: &mut [u8], written: &mut u64) -> u64
    ensures number { result ≡ packing_number (packing_eights words.now (length out.old)) }
    ensures space { out.new ≡ pack_eights_into words.now out.old }
    ensures value { written.new ≡ packing_value (packing_eights words.now (length out.old)) }
{
    let answer = words_packing::pack_bytes(words, out);
    *written = words_packing::packing_value(answer);
    words_packing::packing_number(answer)
}

// Packed bytes, as words of eight bytes.
pub fn galdwist_unpack(bytes: &[u8], out: &mut [u8], written: &mut u64) -> u64
    ensures number { result ≡ packing_number (unpacking_eights bytes.now (length out.old)) }
    ensures space { out.new ≡ unpack_eights_into bytes.now out.old }
    ensures value { written.new ≡ packing_value (unpacking_eights bytes.now (length out.old)) }
{
    let answer = words_packing::unpack_bytes(bytes, out);
    *written = words_packing::packing_value(answer);
    words_packing::packing_number(answer)
}

// The library check: the row of the first fault, and its word; 0 and 0 where the image is a library.
pub fn galdwist_check(image: &[u64], place: &mut u64) -> u64
    ensures number { result ≡ checked_number (checked (check image.now)) }
    ensures value { place.new ≡ checked_place (checked (check image.now)) }
{
    let answer = library_check::check(image);
    *place = library::checked_place(answer);
    library::checked_number(answer)
}

// A correction run: the old library and the stream, the new library into the space; its words, or the line at fault.
pub fn galdwist_run(old: &[u64], stream: &[u8], space: &mut [u64], value: &mut u64) -> u64
    ensures number { result ≡ ran_number (ran (running old.now stream.now (length space.old))) }
    ensures space { space.new ≡ run_into (running old.now stream.now (length space.old)) space.old }
    ensures value { value.new ≡ ran_value (ran (running old.now stream.now (length space.old))) }
{
    let answer = run::run(old, stream, space);
    *value = run::ran_value(answer);
    run::ran_number(answer)
}

// The full compile file: lines and calls, or the card at fault, or the word of a library that is refused.
pub fn galdwist_compile(image: &[u64], out: &mut [u8], first: &mut u64, second: &mut u64) -> u64
    ensures number { result ≡ compiled_number (compiled (compiling image.now (length out.old))) }
    ensures space { out.new ≡ compile_into (compiling image.now (length out.old)) out.old }
    ensures first { first.new ≡ compiled_first (compiled (compiling image.now (length out.old))) }
    ensures second { second.new ≡ compiled_second (compiled (compiling image.now (length out.old))) }
{
    let answer = compile::compile(image, out);
    *first = compile::compiled_first(answer);
    *second = compile::compiled_second(answer);
    compile::compiled_number(answer)
}

// The first library followed by the second, into the space: its words, or the place of the fault; and which library is at fault.
pub fn galdwist_merge(
    first: &[u64],
    second: &[u64],
    space: &mut [u64],
    value: &mut u64,
    which: &mut u64,
) -> u64
    ensures number { result ≡ merged_number (merged (merging first.now second.now (length space.old))) }
    ensures space { space.new ≡ merge_into (merging first.now second.now (length space.old)) space.old }
    ensures value { value.new ≡ merged_value (merged (merging first.now second.now (length space.old))) }
    ensures which { which.new ≡ merged_which (merged (merging first.now second.now (length space.old))) }
{
    let answer = merge::merge(first, second, space);
    *value = merge::merged_value(answer);
    *which = merge::merged_which(answer);
    merge::merged_number(answer)
}

// The fresh library: the words written, or 0 where it is longer than the space.
pub fn galdwist_fresh(space: &mut [u64], value: &mut u64) -> u64
    ensures number { result ≡ begun_number (freshing (length space.old)) }
    ensures space { space.new ≡ fresh_into space.old }
    ensures value { value.new ≡ begun_value (freshing (length space.old)) }
{
    let answer = library_fresh::fresh(space);
    *value = library_fresh::begun_value(answer);
    library_fresh::begun_number(answer)
}

// The directory, a row of 11 bytes for each entry: the count of entries, or the place of the fault, or 0.
pub fn galdwist_directory(image: &[u64], rows: &mut [u8], value: &mut u64) -> u64
    ensures number { result ≡ told_number (told (listing image.now (length rows.old))) }
    ensures space { rows.new ≡ show_into (listing image.now (length rows.old)) rows.old }
    ensures value { value.new ≡ told_value (told (listing image.now (length rows.old))) }
{
    let answer = keeper_directory::directory(image, rows);
    *value = keeper_card::told_value(answer);
    keeper_card::told_number(answer)
}

// The name of a card: the bytes written, or the place of the fault, or 0.
pub fn galdwist_card(image: &[u64], owner: u64, seq: u64, out: &mut [u8], value: &mut u64) -> u64
    ensures number { result ≡ told_number (told (naming image.now owner seq (length out.old))) }
    ensures space { out.new ≡ show_into (naming image.now owner seq (length out.old)) out.old }
    ensures value { value.new ≡ told_value (told (naming image.now owner seq (length out.old))) }
{
    let answer = keeper_card::card(image, owner, seq, out);
    *value = keeper_card::told_value(answer);
    keeper_card::told_number(answer)
}
