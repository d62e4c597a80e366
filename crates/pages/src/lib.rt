// The walk over the fixups of a segment, page by page and chain by chain: a state goes in, and a place that
// the loader patches, the end or a refusal comes out, with the next state. `s` are the bytes of the
// chained fixups, `d` those of the segment.

#![tactic(auto)]

ghost use Rattle.std.specs.Prelude.{◌≡◌, ◌+◌, ◌-◌, ◌*◌, ◌<◌, ◌≤◌, length};
ghost use Rattle.numbers.specs.LittleEndian.{field_at};
ghost use Rattle.pages.specs.Call.{starts_out, begin, out_of_range, marked, on_page, to_chain, to_pointer, onward, pointer, call};
ghost use Rattle.pages.specs.ChainedPointers.{width_of};
ghost use Rattle.pages.specs.Due.{behind};
ghost use Rattle.pages.specs.Farthest.{farthest};
ghost use Rattle.refusal.specs.Numbers.{number_of};
ghost use Rattle.runs.specs.Runs.{refused};
ghost use Rattle.runs.specs.Told.{start_told, told};

pub mod pointer;
mod search;

use chains::Segment;
use numbers::little_endian::{read_u32, read_u64};
use pointer::Fixup;
use refusal::Refusal;
use runs::Step;
use search::{Search, Sought};

// A place that the loader patches, by its offset in the segment, and how.
#[derive(Clone, Copy, Debug, PartialEq, Eq)]
pub struct Patch {
    pub place: u64,
    pub fixup: Fixup,
}

// What is due: a page; a chain of the page's list; or a pointer, and behind its chain the one or the other.
#[derive(Clone, Copy, Debug, PartialEq, Eq)]
pub enum Due {
    NextPage,
    NextChain,
    PointerThenPage,
    PointerThenChain,
}

// The segment; the preferred load address; the indexes of the next page and of the next chain; the offset
// of the page in the segment, and of the next pointer; what is due; and whether the walk has ended by a
// refusal.
#[derive(Clone, Copy, Debug, PartialEq, Eq)]
pub struct PageWalk {
    pub segment: Segment,
    pub base: u64,
    pub page: u64,
    pub chain: u64,
    pub origin: u64,
    pub offset: u64,
    pub due: Due,
    pub ended: bool,
}

// The largest offset that a page may have: above that of every page, of 65,535 with 65,535 bytes.
const FARTHEST: u64 = 65535 * 65535;

impl PageWalk {
    // A walk over the fixups of a segment, whose record is in the bytes of the chained fixups. The base is
    // the preferred load address of the image.
    #[tactic(auto, unfolding(crate::specs::Call::begin))]
    pub fn start(s: &[u8], segment: Segment, base: u64) -> Result<PageWalk, Refusal>
        ensures { start_told result ≡ begin s.now segment base }
    {
        if starts_out(segment, s.len()) {
            return Err(Refusal::StateOutOfRange);
        }
        if !pointer::is_format(segment.pointer_format) {
            return Err(Refusal::UnsupportedFormat);
        }
        Ok(PageWalk {
            segment,
            base,
            page: 0,
            chain: 0,
            origin: 0,
            offset: 0,
            due: Due::NextPage,
            ended: false,
        })
    }

    // The next fixup, the end or a refusal, and the next state, for any state and any bytes.
    #[tactic(auto, unfolding(crate::specs::Call::call, crate::specs::Call::answered))]
    pub fn step(self, s: &[u8], d: &[u8]) -> Step<PageWalk, Patch>
        ensures { told result ≡ call s.now d.now self }
    {
        if self.out_of_range(s.len()) {
            return Step::Refused(self, Refusal::StateOutOfRange);
        }
        if self.ended {
            return Step::End(self);
        }
        match (Search { s, walk: self }).seek() {
            Some(Sought::At(w)) => self.pointer(w, d),
            Some(Sought::End(w)) => Step::End(w),
            None => self.refused(Refusal::BeyondStarts),
        }
    }

    // Whether the state is out of range of so many bytes of chained fixups.
    fn out_of_range(self, len: usize) -> bool
        ensures { result ≡ out_of_range self len }
    {
        starts_out(self.segment, len)
            || !pointer::is_format(self.segment.pointer_format)
            || FARTHEST < self.origin
    }

    // The pointer at which `w` stands; `self` is the state as it was given.
    #[tactic(auto, unfolding(crate::specs::Call::pointer, numbers::specs::Then::then))]
    fn pointer(self, w: PageWalk, d: &[u8]) -> Step<PageWalk, Patch>
        ensures { told result ≡ pointer d.now self w }
    {
        let format = w.segment.pointer_format;
        let Some((n, _)) = read_pointer(d, format, w.offset) else {
            return self.refused(Refusal::PointerOutside);
        };
        let patch = Patch {
            place: w.offset,
            fixup: pointer::meaning(format, w.base, n),
        };
        Step::Item(w.onward(pointer::next(format, n)), patch)
    }

    // The walk after a pointer, where the next one is so many bytes after it.
    #[tactic(auto, unfolding(crate::specs::Call::onward))]
    fn onward(self, next: u64) -> PageWalk
        ensures { result ≡ onward next self }
    {
        if next == 0 {
            return PageWalk {
                due: self.due.behind(),
                ..self
            };
        }
        PageWalk {
            offset: self.offset.saturating_add(next),
            ..self
        }
    }

    // The start of the next page is read.
    fn on_page(self) -> PageWalk
        requires { self.page < self.segment.page_count }
        ensures { result ≡ on_page self }
    {
        PageWalk {
            page: self.page + 1,
            origin: self.page * u64::from(self.segment.page_size),
            ..self
        }
    }

    // The start of a chain is due, of this index.
    fn to_chain(self, index: u64) -> PageWalk
        ensures { result ≡ to_chain index self }
    {
        PageWalk {
            due: Due::NextChain,
            chain: index,
            ..self
        }
    }

    // A pointer is due at an offset, and behind its chain what `due` says.
    fn to_pointer(self, due: Due, offset: u64) -> PageWalk
        ensures { result ≡ to_pointer due offset self }
    {
        PageWalk {
            due,
            offset,
            ..self
        }
    }

    // A refusal, with the state as given but marked as ended.
    fn refused(self, e: Refusal) -> Step<PageWalk, Patch>
        ensures { told result ≡ refused (number_of e) (marked self) }
    {
        let marked = PageWalk {
            ended: true,
            ..self
        };
        Step::Refused(marked, e)
    }
}

impl Due {
    // What is due behind the chain.
    fn behind(self) -> Due
        ensures { result ≡ behind self }
    {
        match self {
            Due::PointerThenPage => Due::NextPage,
            Due::PointerThenChain => Due::NextChain,
            due => due,
        }
    }
}

// Whether the starts of a segment do not lie in so many bytes.
fn starts_out(segment: Segment, len: usize) -> bool
    ensures { result ≡ starts_out segment len }
{
    len < segment.place || (((len - segment.place) / 2) as u64) < segment.count
}

// The pointer at an offset.
fn read_pointer(d: &[u8], format: u16, offset: u64) -> Option<(u64, usize)>
    ensures { result ≡ field_at (width_of format) d.now offset }
{
    if pointer::is_narrow(format) {
        return read_u32(d, offset as usize);
    }
    read_u64(d, offset as usize)
}
