// The search for the next pointer of a walk, from page to page and along a page's list of chains.
ghost use Rattle.std.specs.Prelude.{◌≡◌, ◌+◌, ◌-◌, ◌*◌, ◌≤◌, length};
ghost use Rattle.pages.specs.Farthest.{farthest};

use crate::{Due, PageWalk};
use numbers::little_endian::read_u16;

// Where a search comes to: a pointer that is due, or the end. (With the `None` beside it there are three cases; a
// `Result` of two walks would say less.)
#[derive(Clone, Copy)]
pub(crate) enum Sought {
    At(PageWalk),
    End(PageWalk),
}

// DYLD_CHAINED_PTR_START_NONE: a page has no chain.
const NONE: u64 = 0xffff;

// DYLD_CHAINED_PTR_START_MULTI: a page has a list of chains; DYLD_CHAINED_PTR_START_LAST: a chain is the
// last of its list.
const MARK: u64 = 0x8000;

// A walk whose state is in range: the starts of its segment lie in the bytes, and its page is as near as a
// page may be. (`..self` is not to be had with ghost fields.)
#[derive(Clone, Copy)]
pub(crate) struct Search<'a> {
    pub(crate) s: &'a [u8],
    pub(crate) walk: PageWalk,
    ghost inside: { walk.segment.place + 2 * walk.segment.count ≤ length s.now },
    ghost near: { walk.origin ≤ farthest },
}

impl<'a> Search<'a> {
    ghost use Rattle.pages.specs.Call.{chain, opened, pages, seek};
    ghost use Rattle.pages.specs.ChainedPointers.{start_at};

    // The walk as it stands at the next pointer; none where a start is beyond the starts.
    #[tactic(auto, unfolding(crate::specs::Call::sought_by))]
    pub(crate) fn seek(self) -> Option<Sought>
        ensures { result ≡ seek self.entry.s.now self.entry.walk }
    {
        match self.walk.due {
            Due::NextPage => self.pages(),
            Due::NextChain => self.chain(),
            Due::PointerThenPage | Due::PointerThenChain => Some(Sought::At(self.walk)),
        }
    }

    // Pages are passed until one has a chain.
    #[tactic(auto, unfolding(crate::specs::Call::pages, numbers::specs::Then::then))]
    fn pages(self) -> Option<Sought>
        ensures { result ≡ pages self.entry.s.now (self.entry.walk.segment.page_count - self.entry.walk.page) self.entry.walk }
    {
        let mut w = self.walk;
        for page in self.walk.page..u64::from(self.walk.segment.page_count) {
            let (start, _) = self.start_at(page)?;
            w = w.on_page();
            if start != NONE {
                return Search { s: self.s, walk: w }.open_page(start);
            }
        }
        Some(Sought::End(w))
    }

    // A page by its start: a list of chains, or one chain.
    #[tactic(auto, unfolding(crate::specs::Call::opened))]
    fn open_page(self, start: u64) -> Option<Sought>
        ensures { result ≡ opened self.entry.s.now self.entry.walk start }
    {
        let w = self.walk;
        if MARK <= start {
            let listed = w.to_chain(start % MARK);
            return Search {
                s: self.s,
                walk: listed,
            }
            .chain();
        }
        Some(Sought::At(w.to_pointer(Due::PointerThenPage, w.origin + start)))
    }

    // The next chain of a list.
    #[tactic(auto, unfolding(crate::specs::Call::chain, crate::specs::ChainedPointers::start_at, numbers::specs::Then::then))]
    fn chain(self) -> Option<Sought>
        ensures { result ≡ chain self.entry.s.now self.entry.walk }
    {
        let w = self.walk;
        let (start, _) = self.start_at(w.chain)?;
        let next = w.to_chain(w.chain + 1);
        let due = if start < MARK {
            Due::PointerThenChain
        } else {
            Due::PointerThenPage
        };
        Some(Sought::At(next.to_pointer(due, w.origin + start % MARK)))
    }

    // A start of the segment, of a page or of a chain, and the place behind it.
    #[tactic(auto, unfolding(crate::specs::ChainedPointers::start_at))]
    fn start_at(self, index: u64) -> Option<(u64, usize)>
        ensures { result ≡ start_at self.entry.s.now self.entry.walk.segment index }
    {
        let segment = self.walk.segment;
        if index < segment.count {
            return read_u16(self.s, segment.place + 2 * (index as usize));
        }
        None
    }
}
