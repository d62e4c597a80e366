// Names: a part of the bytes that are lent, by its place and length.
ghost use Rattle.std.specs.Prelude.{◌≡◌, length};
ghost use Rattle.brinetrellis.specs.Entries.{part_words, name};

use packing::{refused, write};
use refusal::Refusal;

#[unsafe(no_mangle)]
pub extern "C" fn brinetrellis_name(bytes: &[u8], place: u64, size: u64, part: &mut [u8]) -> u64
    ensures { (result, part.new) ≡ name bytes.now place size part.old }
{
    if part.len() != 16 {
        return refused(Refusal::StateOutOfRange);
    }
    let words = part_words(bytes.len() as u64, place, size);
    write(&words, part);
    0
}

fn part_words(len: u64, place: u64, size: u64) -> [u64; 2]
    ensures { result ≡ part_words len place size }
{
    match place.checked_add(size) {
        Some(end) if end <= len => [place, size],
        _ => [0, 0],
    }
}
