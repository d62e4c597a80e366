// Chained fixups: their segments, and their imports.
use crate::closing;
use crate::closing::{Ending, Faults, Source, name};
use crate::line::Lines;
use chains::{Segment, SegmentWalk};
use imports::{Import, ImportWalk};
use refusal::Refusal;
use runs::Step;
use std::io::{self, Write};

pub(crate) fn list_segments(s: &[u8], max: u64, lines: &mut Lines) -> io::Result<()> {
    closing::list(Segments::start(s), max, lines)
}

#[derive(Clone, Copy)]
struct Segments<'s> {
    walk: SegmentWalk,
    s: &'s [u8],
    faults: Option<Faults>,
}

impl<'s> Segments<'s> {
    fn start(s: &'s [u8]) -> Result<Segments<'s>, Refusal> {
        let walk = SegmentWalk::start(s)?;
        Ok(Segments {
            walk,
            s,
            faults: None,
        })
    }

    // How the list ends, which would end so without any fault.
    fn or(&self, ending: Ending) -> Ending {
        match self.faults {
            Some(faults) => Ending::Records(faults),
            None => ending,
        }
    }

    // One more record is refused, behind which the walk stands.
    fn fault(&mut self, why: Refusal) {
        self.faults = match self.faults {
            Some(first) => Some(Faults {
                records: first.records.wrapping_add(1),
                ..first
            }),
            None => Some(Faults {
                records: 1,
                why,
                place: self.walk.place as u64,
                index: passed(self.walk),
            }),
        }
    }
}

// The walk goes on behind a record that is refused, and the record is listed as such.
impl Source for Segments<'_> {
    type Item = Result<Segment, Refusal>;

    #[inline(always)]
    fn next(&mut self) -> Result<Result<Segment, Refusal>, Ending> {
        match self.walk.step(self.s) {
            Step::Item(next, x) => {
                self.walk = next;
                Ok(Ok(x))
            }
            Step::End(_) => Err(self.or(Ending::End)),
            Step::Refused(next, why) => {
                self.walk = next;
                Ok(Err(why))
            }
        }
    }

    fn print(
        &mut self,
        record: Result<Segment, Refusal>,
        _: u64,
        lines: &mut Lines,
    ) -> io::Result<()> {
        match record {
            Ok(x) => segment(x, lines),
            Err(why) => {
                self.fault(why);
                let index = passed(self.walk);
                let number = why.number();
                let name = name(why);
                writeln!(
                    lines,
                    "segment {index:>7}  refused  number {number}  name \"{name}\""
                )
            }
        }
    }

    fn cut(&self) -> Ending {
        self.or(Ending::Cut)
    }
}

// The index of the segment that the walk has passed last.
pub(crate) fn passed(walk: SegmentWalk) -> u64 {
    walk.index.wrapping_sub(1)
}

fn segment(x: Segment, lines: &mut Lines) -> io::Result<()> {
    lines.decimal("segment ", 7, x.index)?;
    lines.hex("  offset 0x", 16, x.segment_offset)?;
    lines.decimal("  format ", 5, u64::from(x.pointer_format))?;
    lines.hex("  page 0x", 4, u64::from(x.page_size))?;
    lines.decimal("  pages ", 5, u64::from(x.page_count))?;
    lines.hex("  limit 0x", 8, x.max_valid_pointer)?;
    lines.decimal("  starts ", 7, x.count)?;
    lines.decimal("  place ", 7, x.place as u64)?;
    lines.write_all(b"\n")
}

pub(crate) fn list_imports(s: &[u8], max: u64, lines: &mut Lines) -> io::Result<()> {
    closing::list(Imports::start(s), max, lines)
}

#[derive(Clone, Copy)]
struct Imports<'s> {
    walk: ImportWalk,
    s: &'s [u8],
}

impl<'s> Imports<'s> {
    fn start(s: &'s [u8]) -> Result<Imports<'s>, Refusal> {
        let walk = ImportWalk::start(s)?;
        Ok(Imports { walk, s })
    }
}

impl Source for Imports<'_> {
    type Item = Import;

    #[inline(always)]
    fn next(&mut self) -> Result<Import, Ending> {
        match self.walk.step(self.s) {
            Step::Item(next, x) => {
                self.walk = next;
                Ok(x)
            }
            Step::End(_) => Err(Ending::End),
            Step::Refused(stood, why) => Err(Ending::Refused {
                why,
                place: stood.place as u64,
            }),
        }
    }

    fn print(&mut self, x: Import, index: u64, lines: &mut Lines) -> io::Result<()> {
        lines.decimal("import ", 7, index)?;
        lines.signed("  library ", 5, i64::from(x.library))?;
        lines.decimal("  weak ", 1, u64::from(x.weak))?;
        lines.symbol(x.addend, x.name(self.s))
    }
}
