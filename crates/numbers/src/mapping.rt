// Signed numbers as unsigned ones, and back: small sizes of both signs become small numbers.
ghost use Rattle.std.specs.Prelude.{◌≡◌};
ghost use Rattle.numbers.specs.law.Mapping.{unsigned_of, signed_of};

pub fn unsigned(x: i64) -> u64
    ensures { result ≡ unsigned_of x }
{
    if x < 0 {
        let size = (-(x + 1)) as u64;
        2 * size + 1
    } else {
        2 * (x as u64)
    }
}

pub fn signed(m: u64) -> i64
    ensures { result ≡ signed_of m }
{
    let half = (m / 2) as i64;
    if m % 2 == 0 { half } else { -half - 1 }
}
