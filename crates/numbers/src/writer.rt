// Numbers to bytes, in groups of seven.
ghost use Rattle.std.specs.Prelude.{◌≡◌, ◌+◌, ◌≤◌, ◌<◌, length};
ghost use Rattle.std.proofs.lemmas.List.Edits.{sets};
ghost use Rattle.numbers.specs.law.Groups.{encode, groups, write_told, written};
ghost use Rattle.numbers.specs.inside.GroupLaws.{size_of};
ghost use Rattle.numbers.specs.inside.LeadingGroups.{leading, past, in_groups};
ghost use Rattle.numbers.specs.law.CodecTold.{count_told};

use crate::answer::No;
use crate::mapping::unsigned;

// The answer is the count of bytes.
// Two wrong answers that the promise rules out: "4" where all bytes fit, and bytes changed before it is known that all fit.
#[tactic(auto, using(crate::proofs::Listed::fits_or_not))]
pub fn write(list: &[i64], bytes: &mut [u8]) -> Result<usize, No>
    ensures result_value { count_told result ≡ write_told list.now (length bytes.old) }
    ensures bytes_after { bytes.new ≡ written list.now bytes.old }
{
    // No `ok_or` with a `?`: docs/check-writer looks through every function that writing reaches, and those are the library's.
    match size_of(list, bytes.len()) {
        Some(count) => {
            put_all(list, bytes);
            Ok(count)
        }
        None => Err(No {
            number: 4,
            step: 0,
            place: 0,
        }),
    }
}

// The bytes of the list, counted before any is written, where they fit.
fn size_of(list: &[i64], room: usize) -> Option<usize>
    ensures { result ≡ size_of list.now room }
{
    let mut total: usize = 0;
    for &x in list {
        let w = width(unsigned(x));
        if room - total < w {
            return None;
        }
        total += w;
    }
    Some(total)
}

// How many groups a number has: one, and nine sixty-fourths of its length in bits. The odd number beside it has as many, and is never 0.
#[tactic(auto, using(crate::proofs::Counted::zeros_count))]
fn width(m: u64) -> usize
    ensures { result ≡ length (groups m) }
{
    let above = (m / 2 * 2 + 1).leading_zeros() as usize;
    (9 * (63 - above) + 73) / 64
}

// Every number of the list, one after the other from the front of the bytes.
fn put_all(list: &[i64], bytes: &mut [u8])
    requires { length (encode list.now) ≤ length bytes.old }
    ensures { bytes.new ≡ sets bytes.old 0 (encode list.now) }
{
    let mut at: usize = 0;
    for &x in list {
        at = put(bytes, at, unsigned(x));
    }
}

// The groups of one number, from `at` on; what comes after them is the answer. Each limit is 128 times the one before. Kept, six tests: with a branch for
// each group numbers of any size took a fifth longer (docs/notes/P4.md). Kept, `bytes, at, m`: over the slice that is left, 1.0 to 1.3 times as long.
#[tactic(auto, using(crate::proofs::Placed::by_size))]
fn put(bytes: &mut [u8], at: usize, m: u64) -> usize
    requires { at + length (groups m) ≤ length bytes.old }
    ensures value { result ≡ at + length (groups m) }
    ensures bytes_after { bytes.new ≡ sets bytes.old at (groups m) }
{
    if m < 128 {
        return put_count(bytes, at, m, 0);
    }
    if m < 16384 {
        return put_count(bytes, at, m, 1);
    }
    if m < 2097152 {
        return put_count(bytes, at, m, 2);
    }
    if m < 268435456 {
        return put_count(bytes, at, m, 3);
    }
    if m < 34359738368 {
        return put_count(bytes, at, m, 4);
    }
    if m < 4398046511104 {
        return put_count(bytes, at, m, 5);
    }
    put_long(bytes, at, m)
}

// Seven groups or more: the first six, and then the last four over them. Where sizes vary, to ask after each costs more than to place some twice.
#[tactic(auto, using(crate::proofs::Placed::in_two_goes))]
fn put_long(bytes: &mut [u8], at: usize, m: u64) -> usize
    requires le_m { 4398046511104 ≤ m }
    requires m_in_bounds { at + length (groups m) ≤ length bytes.old }
    ensures value { result ≡ at + length (groups m) }
    ensures bytes_after { bytes.new ≡ sets bytes.old at (groups m) }
{
    let before = width(m) - 4;
    put_leading(bytes, at, m, 6);
    put_count(bytes, at + before, m >> (7 * before), 3)
}

// `count` groups that another follows, and what is left of the number as the last.
#[tactic(auto, using(crate::proofs::Placed::last_placed))]
fn put_count(bytes: &mut [u8], at: usize, m: u64, count: usize) -> usize
    requires m_bound { past count m < 128 }
    requires count_in_bounds { at + count < length bytes.old }
    ensures value { result ≡ at + count + 1 }
    ensures bytes_after { bytes.new ≡ sets bytes.old at (in_groups count m) }
{
    let last = put_leading(bytes, at, m, count);
    bytes[at + count] = last as u8;
    at + count + 1
}

// `count` groups that another follows; what is left of the number is the answer.
fn put_leading(bytes: &mut [u8], at: usize, m: u64, count: usize) -> u64
    requires { at + count ≤ length bytes.old }
    ensures value { result ≡ past count m }
    ensures bytes_after { bytes.new ≡ sets bytes.old at (leading count m) }
{
    let mut rest = m;
    for i in 0..count {
        bytes[at + i] = (rest % 128 + 128) as u8;
        rest /= 128;
    }
    rest
}
