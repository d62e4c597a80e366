// The exports trie.
use crate::closing;
use crate::closing::{Ending, Source};
use crate::line::Lines;
use nodes::export::{Export, ExportData};
use std::io::{self, Write};
use trie::{TrieAnswer, TrieWalk};

// The most nodes that are visited for one export. A trie that fits the room has fewer; one whose nodes are shared
// can list more than any run would come to the end of, and none of them an export.
const NODES: u64 = 0x100_0000;

// The most bytes of a name.
const LONGEST: usize = 65536;

pub(crate) fn list(s: &[u8], max: u64, lines: &mut Lines) -> io::Result<()> {
    let mut name = [0; LONGEST];
    let exports = Exports {
        walk: TrieWalk::start(),
        s,
        name: &mut name,
    };
    closing::list(Ok(exports), max, lines)
}

#[derive(Drop)]
struct Exports<'s> {
    walk: TrieWalk,
    s: &'s [u8],
    name: &'s mut [u8; LONGEST],
}

// An export, and the length of its name.
#[derive(Clone, Copy)]
struct Named {
    export: Export,
    length: u64,
}

impl Source for Exports<'_> {
    type Item = Named;

    #[inline(always)]
    fn next(&mut self) -> Result<Named, Ending> {
        let told = self.walk.step(self.s, &mut self.name[..], NODES);
        self.walk = told.walk;
        match told.answer {
            TrieAnswer::Export { length, export } => Ok(Named { export, length }),
            TrieAnswer::More => Err(Ending::Spent { nodes: NODES }),
            TrieAnswer::End => Err(Ending::End),
            TrieAnswer::Refused(why) => Err(Ending::Refused {
                why,
                place: place(&self.walk).unwrap_or(0),
            }),
        }
    }

    fn print(&mut self, x: Named, _: u64, lines: &mut Lines) -> io::Result<()> {
        let target = x.export.target;
        let name = self.name.get(..x.length as usize).unwrap_or(&[]);
        lines.hex("export  flags 0x", 2, u64::from(x.export.flags))?;
        match target {
            ExportData::Regular { address } => {
                lines.hex("  address 0x", 16, address)?;
                lines.quoted("  resolver                  -  name ", name)?;
            }
            ExportData::StubAndResolver { stub, resolver } => {
                lines.hex("  address 0x", 16, stub)?;
                lines.hex("  resolver 0x", 16, resolver)?;
                lines.quoted("  name ", name)?;
            }
            ExportData::Reexport(import) => {
                lines.decimal("  library ", 18, import.ordinal)?;
                lines.quoted("  resolver                  -  name ", name)?;
                lines.quoted("  import ", import.name(self.s))?;
            }
        }
        lines.write_all(b"\n")
    }
}

// Where the next edge of the innermost open node is. Nodes that have none left are no longer open.
fn place(walk: &TrieWalk) -> Option<u64> {
    let open = walk.left.get(..walk.depth)?;
    let innermost = open.iter().rposition(|left| 0 < *left)?;
    walk.places.get(innermost).copied()
}
