// Records of words in bytes, as they cross the boundary to C.

#![tactic(auto)]

ghost use Rattle.std.specs.Prelude.{◌≡◌, ◌*◌, length, eqb};
ghost use Rattle.packing.specs.Fields.{bit, is_record, pointer_size, signed_of, unsigned_of};
ghost use Rattle.packing.specs.Words.{word_at, written, reported};
ghost use Rattle.refusal.specs.Numbers.{number_of};

pub mod walks;

use numbers::little_endian::read_u64;
use refusal::Refusal;

// The word of an index; 0 where it does not lie in the bytes.
pub fn word(s: &[u8], i: usize) -> u64
    ensures { result ≡ word_at s.now i }
{
    if i < s.len() / 8 {
        // (`map_or` says the same; its proof did not close.)
        return match read_u64(s, 8 * i) {
            Some((v, _)) => v,
            None => 0,
        };
    }
    0
}

// Whether bytes are so many words.
fn has_words(s: &[u8], count: usize) -> bool
    ensures { result ≡ eqb (length s.now) (8 * count) }
{
    s.len() % 8 == 0 && s.len() / 8 == count
}

// Whether bytes are a record: a word for each field, at most the largest value that the field may have.
pub fn is_record(s: &[u8], largest: &[u64]) -> bool
    ensures { result ≡ is_record s.now largest.now }
{
    has_words(s, largest.len())
        && largest
            .iter()
            .enumerate()
            .all(|(i, most)| word(s, i) <= *most)
}

// The words are written over all the bytes; over none where these have another length.
pub fn write(words: &[u64], s: &mut [u8])
    ensures { s.new ≡ written words.now s.old }
{
    if !has_words(s, words.len()) {
        return;
    }
    for (i, v) in words.iter().enumerate() {
        s[8 * i..8 * i + 8].copy_from_slice(&v.to_le_bytes());
    }
}

// An answer: its number, with the words of the state and those of the item, each written over its bytes.
pub fn report(number: u64, kept: &[u64], found: &[u64], state: &mut [u8], item: &mut [u8]) -> u64
    ensures { (result, state.new, item.new) ≡ reported number kept.now found.now state.old item.old }
{
    write(kept, state);
    write(found, item);
    number
}

// A refusal as the number that is answered.
pub fn refused(e: Refusal) -> u64
    ensures { result ≡ number_of e }
{
    u64::from(e.number())
}

// A flag as a word.
pub fn bit(b: bool) -> u64
    ensures { result ≡ bit b }
{
    u64::from(b)
}

// A signed number as a word.
pub fn unsigned(z: i64) -> u64
    ensures { result ≡ unsigned_of z }
{
    z.cast_unsigned()
}

// A word as a signed number.
pub fn signed(v: u64) -> i64
    ensures { result ≡ signed_of v }
{
    v.cast_signed()
}

// A pointer size, which is a byte.
pub fn pointer_size(v: u64) -> Result<u8, Refusal>
    ensures { result ≡ pointer_size v }
{
    u8::try_from(v).map_err(|_| Refusal::PointerSize)
}
