// Arrays that are filled from the front.
ghost use Rattle.std.specs.Prelude.{◌≡◌, ℕ, ◌<◌, ◌≤◌, length, get_or};
ghost use Rattle.case.specs.law.LayoutOf.{Holds};

// Each slot by its place. A caller learns what a slot holds by any function that the closure computes.
pub(crate) fn fill<T: Copy, F: Fn(usize) -> T>(slots: &mut [T], part: F)
    requires { (i : ℕ) → i < length slots.old → F.pre part i }
    ensures { (none : T) (f : ℕ → T) → ((i : ℕ) → i < length slots.old → (r : T) → F.post part i r → r ≡ f i)
        → (i : ℕ) → i < length slots.old → get_or slots.new i none ≡ f i }
{
    for (i, slot) in slots.iter_mut().enumerate() {
        *slot = part(i);
    }
}

// The array with its first `n` slots filled, the rest as they are.
pub(crate) fn filled<T: Copy, const N: usize, F: Fn(usize) -> T>(
    old: [T; N],
    n: usize,
    part: F,
) -> [T; N]
    requires few { n ≤ N }
    requires each { (i : ℕ) → i < n → F.pre part i }
    ensures front { (none : T) (f : ℕ → T) → ((i : ℕ) → i < n → (r : T) → F.post part i r → r ≡ f i) → Holds none result f n }
    ensures rest { (none : T) (i : ℕ) → n ≤ i → get_or result i none ≡ get_or old i none }
{
    let mut slots = old;
    fill(&mut slots[..n], part);
    slots
}
