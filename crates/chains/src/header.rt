// The header of chained fixups.
ghost use Rattle.std.specs.Prelude.{◌≡◌, cond, ltb, length, Some, None};
ghost use Rattle.chains.specs.FixupChains.{header_of, header_at};
ghost use Rattle.chains.specs.Told.{header_told};

use numbers::little_endian::read_u32;
use refusal::Refusal;

// dyld_chained_fixups_header: the version; where the starts, the imports and the symbols are; how many
// imports there are, and of which format; and how the symbols are packed.
#[derive(Clone, Copy, Debug, PartialEq, Eq)]
pub struct Header {
    pub fixups_version: u64,
    pub starts_offset: u64,
    pub imports_offset: u64,
    pub symbols_offset: u64,
    pub imports_count: u64,
    pub imports_format: u64,
    pub symbols_format: u64,
}

impl Header {
    // The header that chained fixups begin with.
    #[tactic(auto, unfolding(crate::specs::FixupChains::header_at))]
    pub fn parse(s: &[u8]) -> Result<Header, Refusal>
        ensures { header_told result ≡ header_at s.now }
    {
        let header = Header::read(s).ok_or(Refusal::FaultyChains)?;
        if header.fixups_version != 0 {
            return Err(Refusal::UnknownVersion);
        }
        Ok(header)
    }

    // Its fields, where all of them lie in the bytes. (One test of the length is all that is left of those of the fields.)
    #[tactic(auto, unfolding(numbers::specs::LittleEndian::field_at))]
    fn read(s: &[u8]) -> Option<Header>
        ensures { result ≡ cond (ltb (length s.now) 28) None (Some (header_of s.now)) }
    {
        if s.len() < 28 {
            return None;
        }
        Some(Header {
            fixups_version: read_u32(s, 0)?.0,
            starts_offset: read_u32(s, 4)?.0,
            imports_offset: read_u32(s, 8)?.0,
            symbols_offset: read_u32(s, 12)?.0,
            imports_count: read_u32(s, 16)?.0,
            imports_format: read_u32(s, 20)?.0,
            symbols_format: read_u32(s, 24)?.0,
        })
    }
}
