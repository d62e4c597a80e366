// The records of imports, by their format, and the import with its name.
ghost use Rattle.std.specs.Prelude.{cond, ◌≡◌, ◌+◌, ◌-◌, ◌^◌, ◌≤◌, ◌<◌, ltb, pos, ◌-ℤ◌};
ghost use Rattle.imports.specs.ChainedImports.{narrow, wide, plain_at, addend_at, addend64_at, record_at, import_at};
ghost use Rattle.numbers.specs.Strings.{string_at};

use crate::Import;
use numbers::little_endian::{read_u32, read_u64};
use numbers::parts::Part;
use numbers::strings::read_string;
use refusal::Refusal;

// What a record says, dyld_chained_import or one with an addend: where in the symbols the name is, the addend,
// the library, and whether the symbol may be missing.
#[derive(Clone, Copy)]
pub(crate) struct ChainedImport {
    name_offset: u64,
    addend: i64,
    library: i32,
    weak: bool,
}

// The import whose record is at a place, and the place behind the record.
#[tactic(auto, unfolding(crate::specs::ChainedImports::import_at, crate::specs::ChainedImports::then_record, numbers::specs::Then::then))]
pub(crate) fn read_import(
    s: &[u8],
    format: u64,
    symbols: usize,
    at: usize,
) -> Result<(Import, usize), Refusal>
    ensures { result ≡ import_at s.now format symbols at }
{
    let (record, next) = read_record(s, format, at)?;
    let (name, _) = read_name(s, symbols, record.name_offset).ok_or(Refusal::FaultyImport)?;
    let import = Import {
        library: record.library,
        weak: record.weak,
        addend: record.addend,
        name,
    };
    Ok((import, next))
}

// The name at an offset in the symbols, and the place behind it.
fn read_name(s: &[u8], symbols: usize, offset: u64) -> Option<(Part, usize)>
    ensures { result ≡ string_at s.now (symbols + offset) }
{
    read_string(s, symbols.saturating_add(offset as usize))
}

// The record of a format at a place, and the place behind it.
#[tactic(auto, unfolding(crate::specs::ChainedImports::record_at))]
fn read_record(s: &[u8], format: u64, at: usize) -> Result<(ChainedImport, usize), Refusal>
    ensures { result ≡ record_at s.now format at }
{
    match format {
        1 => read_plain(s, at),
        2 => read_addend(s, at),
        3 => read_addend64(s, at),
        _ => Err(Refusal::UnsupportedFormat),
    }
}

#[tactic(auto, unfolding(crate::specs::ChainedImports::plain_at, numbers::specs::Then::then))]
fn read_plain(s: &[u8], at: usize) -> Result<(ChainedImport, usize), Refusal>
    ensures { result ≡ plain_at s.now at }
{
    let (fields, next) = read_u32(s, at).ok_or(Refusal::FaultyImport)?;
    Ok((narrow(fields, 0), next))
}

#[tactic(auto, unfolding(crate::specs::ChainedImports::addend_at, numbers::specs::Then::then))]
fn read_addend(s: &[u8], at: usize) -> Result<(ChainedImport, usize), Refusal>
    ensures { result ≡ addend_at s.now at }
{
    let (fields, behind) = read_u32(s, at).ok_or(Refusal::FaultyImport)?;
    let (n, next) = read_u32(s, behind).ok_or(Refusal::FaultyImport)?;
    let addend = signed(n, 0x7fff_ffff, 0xffff_ffff);
    Ok((narrow(fields, addend), next))
}

// As `read_addend`, of eight bytes each: a type parameter that brings the reader, the table and the signs would take
// more lines than both.
#[tactic(auto, unfolding(crate::specs::ChainedImports::addend64_at, numbers::specs::Then::then))]
fn read_addend64(s: &[u8], at: usize) -> Result<(ChainedImport, usize), Refusal>
    ensures { result ≡ addend64_at s.now at }
{
    let (fields, behind) = read_u64(s, at).ok_or(Refusal::FaultyImport)?;
    let (n, next) = read_u64(s, behind).ok_or(Refusal::FaultyImport)?;
    let addend = signed(n, 0x7fff_ffff_ffff_ffff, 0xffff_ffff_ffff_ffff);
    Ok((wide(fields, addend), next))
}

// The fields of a record of four bytes. Here and in `wide` the code is two tables, as the header has two structs:
// one function would take four places and widths, and be no plainer.
fn narrow(n: u64, addend: i64) -> ChainedImport
    ensures { result ≡ narrow n addend }
{
    ChainedImport {
        library: library(n % 0x100, 0xf0, 0xff),
        weak: n / 0x100 % 2 == 1,
        name_offset: n / 0x200 % 0x80_0000,
        addend,
    }
}

// The fields of a record of eight bytes.
fn wide(n: u64, addend: i64) -> ChainedImport
    ensures { result ≡ wide n addend }
{
    ChainedImport {
        library: library(n % 0x1_0000, 0xfff0, 0xffff),
        weak: n / 0x1_0000 % 2 == 1,
        name_offset: n / 0x1_0000_0000 % 0x1_0000_0000,
        addend,
    }
}

// The number that n stands for, of those up to `most`: above a bound they are negative.
fn signed(n: u64, bound: u64, most: u64) -> i64
    requires { (n ≤ most) × (bound < 2 ^ 63) × (most - bound ≤ 2 ^ 63) }
    ensures { result ≡ cond (ltb bound n) (pos n -ℤ pos (most + 1)) (pos n) }
{
    if bound < n {
        // n - most - 1, in steps that fit.
        return -1 - ((most - n) as i64);
    }
    n as i64
}

// The same, as a library.
fn library(n: u64, bound: u64, most: u64) -> i32
    requires { (n ≤ most) × (bound ≤ most) × (most < 2 ^ 31) }
    ensures { result ≡ cond (ltb bound n) (pos n -ℤ pos (most + 1)) (pos n) }
{
    signed(n, bound, most) as i32
}
