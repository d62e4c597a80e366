// The record of a segment.
ghost use Rattle.std.specs.Prelude.{◌≡◌};
ghost use Rattle.chains.specs.FixupChains.{record_at};

use crate::Segment;
use numbers::little_endian::{read_u16, read_u32, read_u64};

// The bytes of a record before its starts.
const SIZE: u64 = 22;

// The record at a place, of the segment of an index.
#[tactic(auto, unfolding(crate::specs::FixupChains::record_at, numbers::specs::LittleEndian::field_at))]
pub(crate) fn read_record(s: &[u8], index: u64, at: usize) -> Option<Segment>
    ensures { result ≡ record_at s.now index at }
{
    let (size, next) = read_u32(s, at)?;
    let (page_size, next) = read_u16(s, next)?;
    let (pointer_format, next) = read_u16(s, next)?;
    let (segment_offset, next) = read_u64(s, next)?;
    let (max_valid_pointer, next) = read_u32(s, next)?;
    let (page_count, place) = read_u16(s, next)?;
    if size < SIZE {
        return None;
    }
    let count = (size - SIZE) / 2;
    if (((s.len() - place) / 2) as u64) < count {
        return None;
    }
    Some(Segment {
        index,
        page_size: page_size as u16,
        pointer_format: pointer_format as u16,
        segment_offset,
        max_valid_pointer,
        page_count: page_count as u16,
        place,
        count,
    })
}
