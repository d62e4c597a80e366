// The walk over the segments that chained fixups are in: a state goes in, and a segment's record, the end
// or a refusal comes out, with the next state.

#![tactic(auto)]

ghost use Rattle.std.specs.Prelude.{◌≡◌, ◌+◌, ◌*◌, ltb};
ghost use Rattle.chains.specs.Call.{at_index, begin, recorded, call};
ghost use Rattle.runs.specs.Told.{start_told, told};

pub mod header;
mod record;

use header::Header;
use numbers::little_endian::read_u32;
use record::read_record;
use refusal::Refusal;
use runs::Step;

// What is known of a segment's chains: its index, its offset in memory, the largest value that is a pointer
// (not applied), the place and number of the starts in the lent bytes, the size of its pages, the format of
// its pointers, and the number of its pages. (The format is a number: segments of formats that no page walk reads are
// listed too, to C as well.)
#[derive(Clone, Copy, Debug, PartialEq, Eq)]
pub struct Segment {
    pub index: u64,
    pub segment_offset: u64,
    pub max_valid_pointer: u64,
    pub place: usize,
    pub count: u64,
    pub page_size: u16,
    pub pointer_format: u16,
    pub page_count: u16,
}

// Where the starts are in the lent bytes, how many segments they have, and the index of the next.
#[derive(Clone, Copy, Debug, PartialEq, Eq)]
pub struct SegmentWalk {
    pub place: usize,
    pub count: u64,
    pub index: u64,
}

impl SegmentWalk {
    // A walk over the segments of chained fixups.
    #[tactic(auto, unfolding(crate::specs::Call::begin, crate::specs::FixupChains::then_starts, crate::specs::FixupChains::then_header, numbers::specs::Then::then, numbers::specs::LittleEndian::field_at))]
    pub fn start(s: &[u8]) -> Result<SegmentWalk, Refusal>
        ensures { start_told result ≡ begin s.now }
    {
        let header = Header::parse(s)?;
        let place = header.starts_offset as usize;
        let (count, at) = read_u32(s, place).ok_or(Refusal::FaultyChains)?;
        if (((s.len() - at) / 4) as u64) < count {
            return Err(Refusal::FaultyChains);
        }
        Ok(SegmentWalk {
            place,
            count,
            index: 0,
        })
    }

    // The next segment that has fixups, the end or a refusal, and the next state, for any state and any
    // bytes. A segment whose record is refused is passed over by the next call.
    #[tactic(auto, unfolding(crate::specs::Call::call))]
    pub fn step(self, s: &[u8]) -> Step<SegmentWalk, Segment>
        ensures { told result ≡ call s.now self }
    {
        if self.out_of_range(s.len()) {
            return Step::Refused(self, Refusal::StateOutOfRange);
        }
        for index in self.index..self.count {
            let (offset, _) = read_u32(s, self.place + 4 + 4 * (index as usize)).unwrap();
            if offset != 0 {
                let at = self.place.saturating_add(offset as usize);
                return self.at(index + 1).record(read_record(s, index, at));
            }
        }
        let last = self.index.max(self.count);
        Step::End(self.at(last))
    }

    // Whether the starts do not lie in so many bytes.
    fn out_of_range(self, len: usize) -> bool
        ensures { result ≡ ltb len (self.place + 4 + 4 * self.count) }
    {
        len < self.place
            || len - self.place < 4
            || (((len - self.place - 4) / 4) as u64) < self.count
    }

    // A record, and the state behind it.
    #[tactic(auto, unfolding(crate::specs::Call::recorded))]
    fn record(self, read: Option<Segment>) -> Step<SegmentWalk, Segment>
        ensures { told result ≡ recorded self read }
    {
        match read {
            Some(segment) => Step::Item(self, segment),
            None => Step::Refused(self, Refusal::FaultyChains),
        }
    }

    // With another index.
    fn at(self, index: u64) -> SegmentWalk
        ensures { result ≡ at_index index self }
    {
        SegmentWalk { index, ..self }
    }
}
