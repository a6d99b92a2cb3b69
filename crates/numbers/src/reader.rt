// Bytes to numbers, in groups of seven.
ghost use Rattle.std.specs.Prelude.{◌≡◌, ◌+◌, ◌*◌, ◌^◌, ◌<◌, ◌≤◌, length, drop};
ghost use Rattle.numbers.specs.law.Reading.{number_of, later_bytes, last_byte, in_front, read_of, read_told};
ghost use Rattle.numbers.specs.inside.Shifted.{shifted};
ghost use Rattle.numbers.specs.law.CodecTold.{count_told};
ghost use Rattle.numbers.specs.law.Told.{overlay};

use crate::answer::{No, ask};
use crate::mapping::signed;

// The number at the front of some bytes, and how many of them it takes.
#[derive(Clone, Copy, Debug, PartialEq, Eq)]
pub struct Number {
    pub value: u64,
    pub used: usize,
}

// The question that has a "no" there, and how many bytes were asked for: the last of them is the one that is wrong or missing.
#[derive(Clone, Copy, Debug, PartialEq, Eq)]
pub struct Wrong {
    pub number: usize, // which goes as it is into the `No`
    pub asked: usize,
}

// The answer is the count of numbers. Kept, a `while`, as no plainer: a `for` over the list's places would ask whether bytes are left in each turn and behind
// the last, and 3 apart from the place that it is about. Kept, the `match`: with `map_err` the proof that the sum in its closure is in range did not close.
// Wrong answers that the promise rules out: "3" while a place is free, a count with nothing stored, and a number's first byte for the one that is wrong.
#[tactic(auto, using(crate::proofs::Stored::stored))]
pub fn read(bytes: &[u8], list: &mut [i64]) -> Result<usize, No>
    ensures result_value { count_told result ≡ read_told (read_of bytes.now (length list.old)) }
    ensures list_after { list.new ≡ overlay (read_of bytes.now (length list.old)).stored list.old }
{
    let mut at: usize = 0;
    let mut count: usize = 0;
    while at < bytes.len() {
        ask(count < list.len(), 3, 0, at)?;
        match number_at(bytes, at) {
            Ok(n) => {
                list[count] = signed(n.value);
                count += 1;
                at += n.used;
            }
            Err(wrong) => {
                return Err(No {
                    number: wrong.number,
                    step: 0,
                    place: at + wrong.asked - 1,
                });
            }
        }
    }
    Ok(count)
}

// The number whose first byte is at `at`.
#[tactic(auto, using(crate::proofs::Gathered::number_one, crate::proofs::Gathered::number_more))]
fn number_at(bytes: &[u8], at: usize) -> Result<Number, Wrong>
    requires { at < length bytes.now }
    ensures { result ≡ number_of (drop at bytes.now) }
{
    let first = u64::from(bytes[at]);
    if first < 128 {
        return Ok(Number {
            value: first,
            used: 1,
        });
    }
    later(bytes, at + 1, first - 128)
}

// The number whose first group is `group`, and whose second byte is at `start`.
fn later(bytes: &[u8], start: usize, group: u64) -> Result<Number, Wrong>
    requires { (start ≤ length bytes.now) × (group < 128) }
    ensures { result ≡ in_front group (later_bytes 8 (drop start bytes.now)) }
{
    let mut value = group;
    let mut scale: u64 = 128;
    for k in 0..8 {
        if bytes.len() - start <= k {
            return Err(Wrong {
                number: 1,
                asked: 2 + k,
            });
        }
        let b = u64::from(bytes[start + k]);
        if b < 128 {
            return last(b, value, scale, 1 + k);
        }
        value += scale * (b - 128);
        scale *= 128;
    }
    tenth(bytes, start + 8, value)
}

// A last byte after the first, in front of which `used` bytes make up `value`.
fn last(b: u64, value: u64, scale: u64, used: usize) -> Result<Number, Wrong>
    requires { (b < 128) × (value < scale) × (scale ≤ 2 ^ 56) × (used ≤ 9) }
    ensures { result ≡ shifted value scale used (last_byte b) }
{
    if b == 0 {
        Err(Wrong {
            number: 2,
            asked: used + 1,
        })
    } else {
        Ok(Number {
            value: value + scale * b,
            used: used + 1,
        })
    }
}

// The tenth byte, in front of which nine make up `value`. As the last byte it is not 0, so it is 1.
fn tenth(bytes: &[u8], at: usize, value: u64) -> Result<Number, Wrong>
    requires { value < 2 ^ 63 }
    ensures { result ≡ shifted value (2 ^ 63) 9 (later_bytes 0 (drop at bytes.now)) }
{
    match bytes.get(at) {
        Some(1) => Ok(Number {
            value: value + 9223372036854775808,
            used: 10,
        }),
        Some(_) => Err(Wrong {
            number: 2,
            asked: 10, // which is 0 or above 1
        }),
        None => Err(Wrong {
            number: 1,
            asked: 10, // which is missing
        }),
    }
}
