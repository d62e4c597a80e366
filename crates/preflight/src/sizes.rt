// The sizes of the segments.
ghost use Rattle.std.specs.Prelude.{◌≡◌};
ghost use Rattle.preflight.specs.Verdict.{fit_sizes};

use places::LARGEST_SIZE;

// Whether a preflight takes them: not more than 16, and none above 2^62.
pub(crate) fn fit(sizes: &[u64]) -> bool
    ensures { result ≡ fit_sizes sizes.now }
{
    sizes.len() <= 16 && sizes.iter().all(|&z| z <= LARGEST_SIZE)
}
