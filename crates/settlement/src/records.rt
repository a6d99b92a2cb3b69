// The rows of a record.
ghost use Rattle.std.specs.Prelude.{◌≡◌, ◌<◌};
ghost use Rattle.settlement.specs.law.Records.{rows_of, time_of, grams_of};

// How many whole rows there are.
pub(crate) fn rows(meter: &[i64]) -> usize
    ensures { result ≡ rows_of meter.now }
{
    meter.len() / 2
}

// The end time of row `i`.
pub(crate) fn time(meter: &[i64], i: usize) -> i64
    requires { i < rows_of meter.now }
    ensures { result ≡ time_of meter.now i }
{
    meter[2 * i]
}

// The grams of row `i`.
pub(crate) fn grams(meter: &[i64], i: usize) -> i64
    requires { i < rows_of meter.now }
    ensures { result ≡ grams_of meter.now i }
{
    meter[2 * i + 1]
}
