// Rebase streams.
ghost use Rattle.std.specs.Prelude.{◌≡◌};
ghost use Rattle.brinetrellis.specs.Entries.{rebase_start, rebase_step};

#[unsafe(no_mangle)]
pub extern "C" fn brinetrellis_rebase_start(size: u64, state: &mut [u8]) -> u64
    ensures { (result, state.new) ≡ rebase_start size state.old }
{
    packed_rebase::start(size, state)
}

#[unsafe(no_mangle)]
pub extern "C" fn brinetrellis_rebase_step(stream: &[u8], state: &mut [u8], item: &mut [u8]) -> u64
    ensures { (result, state.new, item.new) ≡ rebase_step stream.now state.old item.old }
{
    packed_rebase::step(stream, state, item)
}
