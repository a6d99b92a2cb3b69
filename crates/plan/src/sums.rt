// A sum over the indices from 0, each part what a closure says of its index. A part is at most 2^50, and no sum is over more indices than arcs fit,
// so that it fits.
ghost use Rattle.std.specs.Prelude.{◌≡◌, ◌<◌, ◌≤◌, ◌^◌, ℕ, ℤ, nat_abs};
ghost use Rattle.numbers.specs.law.Sums.{sum, sum_n};
ghost use Rattle.case.specs.law.Extents.{arc_capacity};
ghost use Rattle.plan.specs.inside.SumSizes.{most_part};

pub(crate) fn sum<F: Fn(usize) -> i64>(n: usize, part: F) -> i64
    requires few { n ≤ arc_capacity }
    requires each { (i : ℕ) → i < n → F.pre part i }
    requires sized { (i : ℕ) → i < n → (r : ℤ) → F.post part i r → nat_abs r ≤ most_part }
    ensures { (f : ℕ → ℤ) → ((i : ℕ) → i < n → (r : ℤ) → F.post part i r → r ≡ f i) → result ≡ sum n f }
{
    let mut all: i64 = 0;
    for i in 0..n {
        all += part(i);
    }
    all
}

// The same of parts without a sign. Not one function over a trait: zero, sum and size would be members of it with three laws, in two impls, to save four
// lines.
pub(crate) fn sum_n<F: Fn(usize) -> usize>(n: usize, part: F) -> usize
    requires few { n ≤ arc_capacity }
    requires each { (i : ℕ) → i < n → F.pre part i }
    requires sized { (i : ℕ) → i < n → (r : ℕ) → F.post part i r → r ≤ most_part }
    ensures { (f : ℕ → ℕ) → ((i : ℕ) → i < n → (r : ℕ) → F.post part i r → r ≡ f i) → result ≡ sum_n n f }
{
    let mut all: usize = 0;
    for i in 0..n {
        all += part(i);
    }
    all
}
