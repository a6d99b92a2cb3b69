// Lists that are made of others. `copy` is public, for those who make such lists.
ghost use Rattle.std.specs.Prelude.{◌≡◌, ◌+◌, min, length};
ghost use Rattle.std.proofs.lemmas.List.Edits.{sets};

// The numbers of `from`, placed in `to` from `at` on; what does not fit is left out. The answer is the place after the last one, or the end of `to`.
// Two wrong answers that the promise rules out: numbers stored from the front wherever `at` is, and their count for the place after them.
pub fn copy(from: &[i64], to: &mut [i64], at: usize) -> usize
    ensures value { result ≡ min (at + length from.now) (length to.old) }
    ensures to_after { to.new ≡ sets to.old at from.now }
{
    if to.len() <= at {
        return to.len();
    }
    let count = from.len().min(to.len() - at);
    to[at..at + count].copy_from_slice(&from[..count]);
    at + count
}
