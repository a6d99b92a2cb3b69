// Orders of signed numbers, and a number of a list. All are total.
ghost use Rattle.std.specs.Prelude.{◌≡◌, ◌&&◌, pos, get_or};
ghost use Rattle.std.specs.Int.Signed.{le_z};
ghost use Rattle.numbers.specs.law.Signed.{pos_part};

// The crates above write the operator, or both of them by `within`.
pub fn at_most(a: i64, b: i64) -> bool
    ensures { result ≡ le_z a b }
{
    a <= b
}

// Under one name, where the crates above ask a number between two limits.
pub fn within(low: i64, x: i64, high: i64) -> bool
    ensures { result ≡ (le_z low x && le_z x high) }
{
    at_most(low, x) && at_most(x, high)
}

// Of both orders. The crates above write the operator, but for 20, which names it.
pub fn same(a: i64, b: i64) -> bool
    ensures { result ≡ (le_z a b && le_z b a) }
{
    a == b
}

// The number at `i`, and 0 past the end.
pub fn at(list: &[i64], i: usize) -> i64
    ensures { result ≡ get_or list.now i (pos 0) }
{
    list.get(i).copied().unwrap_or(0)
}

// A number that is to be an index: 0 where it is negative, and no Option, since earlier questions have shown that it is not.
pub fn index(x: i64) -> usize
    ensures { result ≡ pos_part x }
{
    x.max(0) as usize
}
