// Preflights at the boundary to C: the sizes in bytes, and the verdict written as words.

#![tactic(auto)]

ghost use Rattle.std.specs.Prelude.{ℕ, ◌≡◌, List, length};
ghost use Rattle.bind.specs.Binds.{plainly, weakly, lazily, binds};
ghost use Rattle.packed_preflight.specs.Packed.{sizes_of, verdict_told, flown, Says, IsPreflight};
ghost use Rattle.packing.specs.Words.{words_from};
ghost use Rattle.preflight.specs.Told.{told};
ghost use Rattle.preflight.specs.Verdict.{Verdict, preflight};
ghost use Rattle.rebase.specs.Rebases.{unset, rebases};

use packing::{pointer_size, refused, word, write};
use preflight::Fault;
use refusal::Refusal;
use std::array::from_fn;

// The preflight of a rebase stream.
pub fn rebases(s: &[u8], size: u64, sizes: &[u8], verdict: &mut [u8]) -> u64
    ensures { (result, verdict.new) ≡
        flown (preflight rebases unset) s.now size sizes.now verdict.old }
{
    answer(preflight::rebases, s, size, sizes, verdict)
}

// The preflight of a stream of plain binds.
pub fn plain_binds(s: &[u8], size: u64, sizes: &[u8], verdict: &mut [u8]) -> u64
    ensures { (result, verdict.new) ≡
        flown (preflight binds plainly) s.now size sizes.now verdict.old }
{
    answer(preflight::plain_binds, s, size, sizes, verdict)
}

// The preflight of a stream of weak binds.
pub fn weak_binds(s: &[u8], size: u64, sizes: &[u8], verdict: &mut [u8]) -> u64
    ensures { (result, verdict.new) ≡
        flown (preflight binds weakly) s.now size sizes.now verdict.old }
{
    answer(preflight::weak_binds, s, size, sizes, verdict)
}

// The preflight of a stream of lazy binds.
pub fn lazy_binds(s: &[u8], size: u64, sizes: &[u8], verdict: &mut [u8]) -> u64
    ensures { (result, verdict.new) ≡
        flown (preflight binds lazily) s.now size sizes.now verdict.old }
{
    answer(preflight::lazy_binds, s, size, sizes, verdict)
}

// What they answer and write alike, but for the verdict.
fn answer<F: FnOnce(&[u8], u8, &[u64]) -> Result<u64, Fault>>(
    fly: F,
    s: &[u8],
    size: u64,
    sizes: &[u8],
    verdict: &mut [u8],
) -> u64
    requires { F.IsAlwaysCallable fly }
    ensures { (flight : ℕ → List ℕ → List ℕ → Verdict) → IsPreflight flight → Says (F.post fly) flight →
        (result, verdict.new) ≡ flown flight s.now size sizes.now verdict.old }
{
    if verdict.len() != 16 || sizes.len() % 8 != 0 {
        return refused(Refusal::StateOutOfRange);
    }
    tell(judge(fly, s, size, sizes), verdict)
}

// The verdict. A preflight takes 16 sizes: of more it is enough to know 17.
fn judge<F: FnOnce(&[u8], u8, &[u64]) -> Result<u64, Fault>>(
    fly: F,
    s: &[u8],
    size: u64,
    sizes: &[u8],
) -> Result<u64, Fault>
    requires { F.IsAlwaysCallable fly }
    ensures { (flight : ℕ → List ℕ → List ℕ → Verdict) → IsPreflight flight → Says (F.post fly) flight →
        told result ≡ flight size (sizes_of sizes.now) s.now }
{
    let size = pointer_size(size).map_err(|refusal| Fault {
        position: 0,
        index: 0,
        refusal,
    })?;
    let words = read(sizes);
    let count = (sizes.len() / 8).min(17);
    fly(s, size, &words[..count])
}

// The first seventeen sizes; 0 where there are fewer.
fn read(s: &[u8]) -> [u64; 17]
    ensures { result ≡ words_from s.now 0 17 }
{
    from_fn(|i| word(s, i))
}

fn tell(v: Result<u64, Fault>, verdict: &mut [u8]) -> u64
    requires { length verdict.old ≡ 16 }
    ensures { (result, verdict.new) ≡ verdict_told (told v) }
{
    match v {
        Ok(operations) => {
            write(&[operations, 0], verdict);
            0
        }
        Err(f) => {
            write(&[f.position, f.index], verdict);
            refused(f.refusal)
        }
    }
}
