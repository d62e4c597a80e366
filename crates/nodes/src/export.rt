// What a node of the exports trie exports.
ghost use Rattle.std.specs.Prelude.{◌≡◌};
ghost use Rattle.numbers.specs.Parts.{part_at};
ghost use Rattle.nodes.specs.ExportsTrie.{regular_at, reexport_at, stub_at, export_at};

use numbers::leb128::read_uleb;
use numbers::parts::Part;
use numbers::strings::read_string;

// The library that a symbol is taken from, and the part of the trie's bytes that is the name that it
// has there. (By mach-o/loader.h an empty name stands for the export's own.)
#[derive(Clone, Copy, Debug, PartialEq, Eq)]
pub struct Import {
    pub ordinal: u64,
    pub name: Part,
}

#[derive(Clone, Copy, Debug, PartialEq, Eq)]
pub enum ExportData {
    Regular { address: u64 },
    Reexport(Import),
    StubAndResolver { stub: u64, resolver: u64 },
}

#[derive(Clone, Copy, Debug, PartialEq, Eq)]
pub struct Export {
    pub flags: u8,
    pub target: ExportData,
}

impl Import {
    // The name: a part of the trie's bytes that are lent.
    pub fn name(self, s: &[u8]) -> &[u8]
        ensures { (result.ref_ptr, result.now) ≡ part_at s.entry.ref_ptr s.now self.name.place self.name.length }
    {
        self.name.of(s)
    }
}

// The export data at a place, which ends where the bytes do or before.
#[tactic(auto, unfolding(crate::specs::ExportsTrie::export_at, numbers::specs::Then::then))]
pub(crate) fn read_export(s: &[u8], at: usize) -> Option<Export>
    ensures { result ≡ export_at s.now at }
{
    let (flags, next) = read_uleb(s, at)?;
    if 0x3f < flags {
        return None;
    }
    let kept = flags as u8;
    if flags / 0x08 % 2 == 1 {
        return reexport(s, kept, next);
    }
    if flags / 0x10 % 2 == 1 {
        return stub_and_resolver(s, kept, next);
    }
    regular(s, kept, next)
}

#[tactic(auto, unfolding(crate::specs::ExportsTrie::reexport_at, numbers::specs::Then::then))]
fn reexport(s: &[u8], flags: u8, at: usize) -> Option<Export>
    ensures { result ≡ reexport_at s.now flags at }
{
    let (ordinal, next) = read_uleb(s, at)?;
    let (name, _) = read_string(s, next)?;
    let target = ExportData::Reexport(Import { ordinal, name });
    Some(Export { flags, target })
}

#[tactic(auto, unfolding(crate::specs::ExportsTrie::stub_at, numbers::specs::Then::then))]
fn stub_and_resolver(s: &[u8], flags: u8, at: usize) -> Option<Export>
    ensures { result ≡ stub_at s.now flags at }
{
    let (stub, next) = read_uleb(s, at)?;
    let (resolver, _) = read_uleb(s, next)?;
    let target = ExportData::StubAndResolver { stub, resolver };
    Some(Export { flags, target })
}

#[tactic(auto, unfolding(crate::specs::ExportsTrie::regular_at, numbers::specs::Then::then))]
fn regular(s: &[u8], flags: u8, at: usize) -> Option<Export>
    ensures { result ≡ regular_at s.now flags at }
{
    let (address, _) = read_uleb(s, at)?;
    let target = ExportData::Regular { address };
    Some(Export { flags, target })
}
