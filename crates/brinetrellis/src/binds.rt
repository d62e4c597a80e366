// Bind streams.
ghost use Rattle.std.specs.Prelude.{◌≡◌};
ghost use Rattle.brinetrellis.specs.Entries.{bind_plain, bind_weak, bind_lazy, bind_step};

#[unsafe(no_mangle)]
pub extern "C" fn brinetrellis_bind_plain(size: u64, state: &mut [u8]) -> u64
    ensures { (result, state.new) ≡ bind_plain size state.old }
{
    packed_bind::plain(size, state)
}

#[unsafe(no_mangle)]
pub extern "C" fn brinetrellis_bind_weak(size: u64, state: &mut [u8]) -> u64
    ensures { (result, state.new) ≡ bind_weak size state.old }
{
    packed_bind::weak(size, state)
}

#[unsafe(no_mangle)]
pub extern "C" fn brinetrellis_bind_lazy(size: u64, state: &mut [u8]) -> u64
    ensures { (result, state.new) ≡ bind_lazy size state.old }
{
    packed_bind::lazy(size, state)
}

#[unsafe(no_mangle)]
pub extern "C" fn brinetrellis_bind_step(stream: &[u8], state: &mut [u8], item: &mut [u8]) -> u64
    ensures { (result, state.new, item.new) ≡ bind_step stream.now state.old item.old }
{
    packed_bind::step(stream, state, item)
}
