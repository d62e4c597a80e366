// The preflights as C sees them: numbers and byte slices go in, and a number comes out. What each function answers and
// writes is in specs/Entries.antt, a definition to a function.

#![tactic(auto)]

ghost use Rattle.std.specs.Prelude.{◌≡◌};
ghost use Rattle.flights.specs.Entries.{preflight_rebase, preflight_plain, preflight_weak, preflight_lazy};

#[unsafe(no_mangle)]
pub extern "C" fn brinetrellis_preflight_rebase(
    stream: &[u8],
    size: u64,
    sizes: &[u8],
    verdict: &mut [u8],
) -> u64
    ensures { (result, verdict.new) ≡ preflight_rebase stream.now size sizes.now verdict.old }
{
    packed_preflight::rebases(stream, size, sizes, verdict)
}

#[unsafe(no_mangle)]
pub extern "C" fn brinetrellis_preflight_plain(
    stream: &[u8],
    size: u64,
    sizes: &[u8],
    verdict: &mut [u8],
) -> u64
    ensures { (result, verdict.new) ≡ preflight_plain stream.now size sizes.now verdict.old }
{
    packed_preflight::plain_binds(stream, size, sizes, verdict)
}

#[unsafe(no_mangle)]
pub extern "C" fn brinetrellis_preflight_weak(
    stream: &[u8],
    size: u64,
    sizes: &[u8],
    verdict: &mut [u8],
) -> u64
    ensures { (result, verdict.new) ≡ preflight_weak stream.now size sizes.now verdict.old }
{
    packed_preflight::weak_binds(stream, size, sizes, verdict)
}

#[unsafe(no_mangle)]
pub extern "C" fn brinetrellis_preflight_lazy(
    stream: &[u8],
    size: u64,
    sizes: &[u8],
    verdict: &mut [u8],
) -> u64
    ensures { (result, verdict.new) ≡ preflight_lazy stream.now size sizes.now verdict.old }
{
    packed_preflight::lazy_binds(stream, size, sizes, verdict)
}
