// Chained fixups: segments, the fixups of a segment, imports.
ghost use Rattle.std.specs.Prelude.{◌≡◌};
ghost use Rattle.brinetrellis.specs.Entries.{segment_start, segment_step, page_start, page_step, import_start, import_step};

#[unsafe(no_mangle)]
pub extern "C" fn brinetrellis_segment_start(fixups: &[u8], state: &mut [u8]) -> u64
    ensures { (result, state.new) ≡ segment_start fixups.now state.old }
{
    packed_segments::start(fixups, state)
}

#[unsafe(no_mangle)]
pub extern "C" fn brinetrellis_segment_step(fixups: &[u8], state: &mut [u8], item: &mut [u8]) -> u64
    ensures { (result, state.new, item.new) ≡ segment_step fixups.now state.old item.old }
{
    packed_segments::step(fixups, state, item)
}

// The segment is an item of the walk over segments.
#[unsafe(no_mangle)]
pub extern "C" fn brinetrellis_page_start(
    fixups: &[u8],
    segment: &[u8],
    base: u64,
    state: &mut [u8],
) -> u64
    ensures { (result, state.new) ≡ page_start fixups.now segment.now base state.old }
{
    packed_pages::start(fixups, segment, base, state)
}

// The contents are the segment's bytes.
#[unsafe(no_mangle)]
pub extern "C" fn brinetrellis_page_step(
    fixups: &[u8],
    contents: &[u8],
    state: &mut [u8],
    item: &mut [u8],
) -> u64
    ensures { (result, state.new, item.new) ≡ page_step fixups.now contents.now state.old item.old }
{
    packed_pages::step(fixups, contents, state, item)
}

#[unsafe(no_mangle)]
pub extern "C" fn brinetrellis_import_start(fixups: &[u8], state: &mut [u8]) -> u64
    ensures { (result, state.new) ≡ import_start fixups.now state.old }
{
    packed_imports::start(fixups, state)
}

#[unsafe(no_mangle)]
pub extern "C" fn brinetrellis_import_step(fixups: &[u8], state: &mut [u8], item: &mut [u8]) -> u64
    ensures { (result, state.new, item.new) ≡ import_step fixups.now state.old item.old }
{
    packed_imports::step(fixups, state, item)
}
