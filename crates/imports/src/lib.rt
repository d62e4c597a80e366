// The walk over the imports of chained fixups: a state goes in, and an import, the end or a refusal comes
// out, with the next state.

#![tactic(auto)]

ghost use Rattle.std.specs.Prelude.{◌≡◌, ◌-◌, ◌<◌};
ghost use Rattle.imports.specs.Call.{out_of_range, marked, passed, begin, call};
ghost use Rattle.numbers.specs.Parts.{part_at};
ghost use Rattle.refusal.specs.Numbers.{number_of};
ghost use Rattle.runs.specs.Runs.{refused};
ghost use Rattle.runs.specs.Told.{start_told, told};

mod record;

use chains::header::Header;
use numbers::parts::Part;
use record::read_import;
use refusal::Refusal;
use runs::Step;

// A symbol that is imported: the addend, its name's part of the lent bytes, the library that it is taken
// from, and whether it may be missing.
#[derive(Clone, Copy, Debug, PartialEq, Eq)]
pub struct Import {
    pub addend: i64,
    pub name: Part,
    pub library: i32,
    pub weak: bool,
}

// Where the next import is read, where the symbols are, how many imports are left, and their format;
// and whether the walk has ended by a refusal. (The format is a number: a state that C hands in may hold any, and it
// is judged at the first import.)
#[derive(Clone, Copy, Debug, PartialEq, Eq)]
pub struct ImportWalk {
    pub place: usize,
    pub symbols_offset: usize,
    pub left: u64,
    pub imports_format: u64,
    pub ended: bool,
}

impl Import {
    // The symbol's name: a part of the bytes that are lent.
    pub fn name(self, s: &[u8]) -> &[u8]
        ensures { (result.ref_ptr, result.now) ≡ part_at s.entry.ref_ptr s.now self.name.place self.name.length }
    {
        self.name.of(s)
    }
}

impl ImportWalk {
    // A walk over the imports of chained fixups.
    #[tactic(auto, unfolding(crate::specs::Call::begin, crate::specs::ChainedImports::then_imports, chains::specs::FixupChains::then_header))]
    pub fn start(s: &[u8]) -> Result<ImportWalk, Refusal>
        ensures { start_told result ≡ begin s.now }
    {
        let header = Header::parse(s)?;
        if header.symbols_format != 0 {
            return Err(Refusal::UnsupportedFormat);
        }
        let len = s.len() as u64;
        if len < header.imports_offset || len < header.symbols_offset {
            return Err(Refusal::FaultyImport);
        }
        Ok(ImportWalk {
            place: header.imports_offset as usize,
            symbols_offset: header.symbols_offset as usize,
            left: header.imports_count,
            imports_format: header.imports_format,
            ended: false,
        })
    }

    // The next import, the end or a refusal, and the next state, for any state and any bytes.
    #[tactic(auto, unfolding(crate::specs::Call::call, crate::specs::Call::next, crate::specs::Call::imported))]
    pub fn step(self, s: &[u8]) -> Step<ImportWalk, Import>
        ensures { told result ≡ call s.now self }
    {
        if self.out_of_range(s.len()) {
            return Step::Refused(self, Refusal::StateOutOfRange);
        }
        if self.ended || self.left == 0 {
            return Step::End(self);
        }
        match read_import(s, self.imports_format, self.symbols_offset, self.place) {
            Ok((import, next)) => Step::Item(self.passed(next), import),
            Err(e) => self.refused(e),
        }
    }

    // Whether a place to read at is beyond so many bytes.
    fn out_of_range(self, len: usize) -> bool
        ensures { result ≡ out_of_range self.place self.symbols_offset len }
    {
        len < self.place || len < self.symbols_offset
    }

    // With one import less, read up to a place.
    fn passed(self, next: usize) -> ImportWalk
        requires { 0 < self.left }
        ensures { result ≡ passed next (self.left - 1) self }
    {
        ImportWalk {
            place: next,
            left: self.left - 1,
            ..self
        }
    }

    // A refusal, and the state marked as ended.
    fn refused(self, e: Refusal) -> Step<ImportWalk, Import>
        ensures { told result ≡ refused (number_of e) (marked self) }
    {
        let marked = ImportWalk {
            ended: true,
            ..self
        };
        Step::Refused(marked, e)
    }
}
