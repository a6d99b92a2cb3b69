// Numbers in decimal. Written here and not by a library's `Display`: there is no heap, and the text goes into a lent line.
ghost use Rattle.std.specs.Prelude.{◌≡◌, ◌+◌, ◌≤◌, length};
ghost use Rattle.line.specs.law.Decimal.{last_digit, decimal, signed};
ghost use Rattle.line.specs.inside.Put.{Put};

fn last_digit(n: u64) -> u8
    ensures { result ≡ last_digit n }
{
    b'0' + (n % 10) as u8
}

// How many digits a number has.
#[tactic(auto, using(crate::proofs::Written::digits_of_log, crate::specs::inside::DigitLaws::one_digit))]
fn width(n: u64) -> usize
    ensures { result ≡ length (decimal n) }
{
    n.checked_ilog10().map_or(1, |d| d as usize + 1)
}

// The digits from `at` on, the last one first; the place after them is the answer.
#[tactic(auto, using(crate::specs::inside::DigitLaws::some_digit))]
fn digits(n: u64, line: &mut [u8], at: usize) -> usize
    requires { at + length (decimal n) ≤ length line.old }
    ensures { Put line.old line.new at (decimal n) result }
{
    let end = at + width(n);
    let mut rest = n;
    for i in (at..end).rev() {
        line[i] = last_digit(rest);
        rest /= 10;
    }
    end
}

// A number of either sign.
#[tactic(auto, using(crate::proofs::Written::past_sign))]
pub(crate) fn number(x: i64, line: &mut [u8], at: usize) -> usize
    requires { at + 20 ≤ length line.old }
    ensures put { Put line.old line.new at (signed x) result }
    ensures upper_bound { result ≤ at + 20 }
{
    let size = x.unsigned_abs();
    if x < 0 {
        line[at] = b'-';
        digits(size, line, at + 1)
    } else {
        digits(size, line, at)
    }
}
