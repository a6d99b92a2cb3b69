// The verdict on a plan.
use super::totals::Totals;
use numbers::answer::No;

// Accepted with the six totals, or refused with the first "no".
pub type Verdict = Result<Totals, No>;
