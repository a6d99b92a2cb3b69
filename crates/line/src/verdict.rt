// A verdict in words. `Fit` is asked of a value where it is put into the line, and the public function over these asks nothing.
ghost use Rattle.std.specs.Prelude.{◌≤◌, ◌^◌, length, Ok, Err};
ghost use Rattle.plan.specs.law.Judged.{verdict_told};
ghost use Rattle.plan.specs.inside.VerdictSizes.{Fit};
ghost use Rattle.line.specs.law.Line.{line_of, line_bytes};
ghost use Rattle.line.specs.inside.Put.{Put};

use super::sentence::sentence;
use numbers::answer::No;
use plan::totals::Totals;
use plan::verdict::Verdict;

fn accepted(t: Totals, line: &mut [u8]) -> usize
    requires { (line_bytes ≤ length line.old) × (Fit (2 ^ 63) (Ok t)) }
    ensures { Put line.old line.new 0 (line_of (verdict_told (Ok t))) result }
{
    let switching = t.switching as i64;
    let residual = t.residual as i64;
    let totals = [
        t.pressure, t.demand, switching, residual, t.opening, t.closing,
    ];
    sentence(b"accepted", &totals, line)
}

#[tactic(auto, using(crate::specs::inside::LineLaws::refusal_line))]
fn refused(no: No, line: &mut [u8]) -> usize
    requires { (line_bytes ≤ length line.old) × (Fit (2 ^ 63) (Err no)) }
    ensures { Put line.old line.new 0 (line_of (verdict_told (Err no))) result }
{
    let refusal = [no.number as i64, no.step as i64, no.place as i64];
    sentence(b"refused", &refusal, line)
}

pub(crate) fn tell(verdict: Verdict, line: &mut [u8]) -> usize
    requires { (line_bytes ≤ length line.old) × (Fit (2 ^ 63) verdict) }
    ensures { Put line.old line.new 0 (line_of (verdict_told verdict)) result }
{
    match verdict {
        Ok(totals) => accepted(totals, line),
        Err(no) => refused(no, line),
    }
}
