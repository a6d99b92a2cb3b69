// From the bytes of case.bin and plan.bin to the line.
ghost use Rattle.std.specs.Prelude.{◌≡◌, ◌≤◌, length};
ghost use Rattle.line.specs.law.Line.{line_of, line_bytes, count_in, line_with, Counts};
ghost use Rattle.line.specs.law.Files.{within_limits, files_told, files_line};
ghost use Rattle.line.specs.inside.Put.{Put};

use super::text::copy;
use super::verdict::tell;
use plan::judge::judge_bytes;

pub const CASE_BYTES: usize = 4096;

const CASE_NUMBERS: usize = 1500;

pub const PLAN_BYTES: usize = 8192;

const PLAN_NUMBERS: usize = 4000;

// Room for every line.
pub const LINE_BYTES: usize = 160;

// The line for two files' bytes, at the front of the lent one; the answer is the count of its bytes. One that has no room for every line is left as it is,
// and the answer is 0. Two wrong answers that the promise rules out: two totals that are swapped, and `too long` for a file that is as long as it may be.
#[tactic(auto, using(crate::specs::inside::Put::put_overlay, crate::specs::inside::Put::put_counts), unfolding(crate::specs::law::Files::files_line))]
pub fn line_of(case: &[u8], plan: &[u8], line: &mut [u8]) -> usize
    ensures value { result ≡ count_in line.old (files_line case.now plan.now) }
    ensures line_after { line.new ≡ line_with line.old (files_line case.now plan.now) }
    ensures counts { Counts result line.new }
{
    if line.len() < LINE_BYTES {
        return 0;
    }
    if within(case, plan) {
        judged(case, plan, line)
    } else {
        copy(b"too long\n", line)
    }
}

// Is neither file longer than it may be? Two operators under the name that the law has for them.
fn within(case: &[u8], plan: &[u8]) -> bool
    ensures { result ≡ within_limits case.now plan.now }
{
    case.len() <= CASE_BYTES && plan.len() <= PLAN_BYTES
}

// The line for two files that are not too long.
#[tactic(auto, using(plan::specs::inside::VerdictSizes::bytes_fit))]
fn judged(case: &[u8], plan: &[u8], line: &mut [u8]) -> usize
    requires { line_bytes ≤ length line.old }
    ensures { Put line.old line.new 0 (line_of (files_told case.now plan.now)) result }
{
    let mut case_list = [0i64; CASE_NUMBERS];
    let mut plan_list = [0i64; PLAN_NUMBERS];
    let verdict = judge_bytes(case, plan, &mut case_list, &mut plan_list);
    tell(verdict, line)
}
