// Lists: a line for each item, and a closing line that says how the list ends.
use crate::line::Lines;
use refusal::Refusal;
use std::io::{self, Write};

// How a list ends: all is listed; all up to a Done, with so many bytes read of so many; there is more than was asked
// for; so many nodes were visited, and no further; nothing is listed, and the preflight passes; a refusal, with its
// place; or the same of the first of so many records, with its index.
#[derive(Clone, Copy)]
pub(crate) enum Ending {
    End,
    Done { read: usize, of: usize },
    Cut,
    Spent { nodes: u64 },
    Pass,
    Refused { why: Refusal, place: u64 },
    Records(Faults),
}

// How many records are refused; and of the first of them the refusal, the place and the index.
#[derive(Clone, Copy)]
pub(crate) struct Faults {
    pub(crate) records: u64,
    pub(crate) why: Refusal,
    pub(crate) place: u64,
    pub(crate) index: u64,
}

// What gives the items of a list. (The sources' `next` are alike, but that each steps over bytes of its own and tells
// a place its own way.)
pub(crate) trait Source {
    type Item: Drop;

    // The next item; or how the list ends.
    fn next(&mut self) -> Result<Self::Item, Ending>;

    // The line of an item, which has an index in the list.
    fn print(&mut self, item: Self::Item, index: u64, lines: &mut Lines) -> io::Result<()>;

    // How the list ends where there is more than was asked for.
    fn cut(&self) -> Ending {
        Ending::Cut
    }
}

// Lists so many items of a source, or says why it cannot begin. (The limit and the lines come apart: a preflight has
// lines and no limit.)
pub(crate) fn list<S: Source + Drop>(
    start: Result<S, Refusal>,
    max: u64,
    lines: &mut Lines,
) -> io::Result<()> {
    match start {
        Ok(source) => each(source, max, lines),
        Err(why) => close(lines, 0, Ending::Refused { why, place: 0 }),
    }
}

// (One call of `next`, which is compiled into it: the state of a walk over a trie is copied at each call.)
fn each<S: Source + Drop>(mut source: S, max: u64, lines: &mut Lines) -> io::Result<()> {
    for count in 0..=max {
        match source.next() {
            Ok(_) if count == max => return close(lines, max, source.cut()),
            Ok(item) => source.print(item, count, lines)?,
            Err(ending) => return close(lines, count, ending),
        }
    }
    Ok(()) // not reached: the last turn returns
}

// The last line, with the number that it tells, and then all is written.
pub(crate) fn close(lines: &mut Lines, n: u64, ending: Ending) -> io::Result<()> {
    match ending {
        Ending::End => writeln!(lines, "end  items {n}")?,
        Ending::Done { read, of } => writeln!(lines, "end  items {n}  read {read}  of {of}")?,
        Ending::Cut => writeln!(lines, "cut  items {n}")?,
        Ending::Spent { nodes } => writeln!(lines, "spent  items {n}  nodes {nodes}")?,
        Ending::Pass => writeln!(lines, "pass  operations {n}")?,
        Ending::Refused { why, place } => {
            let number = why.number();
            let name = name(why);
            writeln!(
                lines,
                "refused  number {number}  place {place}  index {n}  name \"{name}\""
            )?;
        }
        Ending::Records(faults) => refused_records(lines, faults)?,
    }
    lines.flush()
}

fn refused_records(lines: &mut Lines, faults: Faults) -> io::Result<()> {
    let Faults {
        records,
        why,
        place,
        index,
    } = faults;
    let number = why.number();
    let name = name(why);
    writeln!(
        lines,
        "refused  number {number}  place {place}  index {index}  records {records}  name \"{name}\""
    )
}

// The refusals in words.
pub(crate) fn name(why: Refusal) -> &'static str {
    match why {
        Refusal::PointerSize => "pointer size is neither 4 nor 8",
        Refusal::UnknownOpcode => "opcode that this reader does not know",
        Refusal::FaultyOperand => "operand cut off or malformed",
        Refusal::OrdinalTooLarge => "library number too large",
        Refusal::NoSegment => "place before any segment was chosen",
        Refusal::NoType => "place before any type was chosen",
        Refusal::NoLibrary => "bind before any library was chosen",
        Refusal::NoSymbol => "bind before any symbol was named",
        Refusal::FaultyChains => "chained fixups do not fit their bytes",
        Refusal::UnknownVersion => "version of chained fixups that this reader does not know",
        Refusal::UnsupportedFormat => "format that this reader does not know",
        Refusal::BeyondStarts => "page or chain beyond the list of starts",
        Refusal::PointerOutside => "chained pointer outside the segment's bytes",
        Refusal::FaultyImport => "import does not fit its bytes",
        Refusal::FaultyNode => "trie node or edge malformed",
        Refusal::ChildIsOpen => "trie node is its own ancestor",
        Refusal::TooManyOpenNodes => "too many trie nodes open at once",
        Refusal::NameTooLong => "exported name longer than the room for it",
        Refusal::StateOutOfRange => "walk state that no walk can have",
        Refusal::PlaceOutside => "place outside its segment",
        Refusal::UnfitSizes => "too many segment sizes, or one too large",
    }
}
