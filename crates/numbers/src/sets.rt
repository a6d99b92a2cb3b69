// Numbers as sets: item i is in the set where bit i is 1. A negative number has no items.
ghost use Rattle.std.specs.Prelude.{◌≡◌};
ghost use Rattle.numbers.specs.law.Sets.{member_of, count_of, disjoint_of, subset_of};

use crate::compare::index;

pub fn member(set: i64, i: usize) -> bool
    ensures { result ≡ member_of set i }
{
    i < 64 && (index(set) >> i) & 1 == 1
}

// How many items the set has.
pub fn count(set: i64) -> usize
    ensures { result ≡ count_of set }
{
    index(set).count_ones() as usize
}

pub fn disjoint(a: i64, b: i64) -> bool
    ensures { result ≡ disjoint_of a b }
{
    index(a) & index(b) == 0
}

// Is every item of `a` in `b`?
pub fn subset(a: i64, b: i64) -> bool
    ensures { result ≡ subset_of a b }
{
    let all = index(a);
    all & index(b) == all
}
