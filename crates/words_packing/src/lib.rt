// Words of 60 bits packed to bytes, and packed bytes back to words.
#![tactic(auto)]

mod eights;
mod packer;
mod stands;
mod unpacker;

pub use packer::{pack, pack_bytes, packing_number, packing_value};
pub use unpacker::{unpack, unpack_bytes};

// Why words are not packed, or bytes not unpacked.
#[derive(Clone, Copy, PartialEq, Eq)]
pub enum PackingRefused {
    // the length is not that of packed words, or not that of words of eight bytes
    Length,
    // the last 4 bits are not zero
    Tail,
    // too little space, or a number to pack that is no word
    Space,
}
