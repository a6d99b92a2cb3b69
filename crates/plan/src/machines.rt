// Sums over the machines of a station that a set names. The station's rows begin at `offset`, and each machine's row begins where the one before it ends.
ghost use Rattle.std.specs.Prelude.{◌≡◌, ◌<◌, ◌≤◌, ℕ, ℤ, nat_abs};
ghost use Rattle.numbers.specs.law.Sets.{member_of};
ghost use Rattle.numbers.specs.law.Sums.{sum, only};
ghost use Rattle.case.specs.law.Layout.{machine_count};
ghost use Rattle.case.specs.law.Records.{machine_row};
ghost use Rattle.case.specs.declared.records.Machine.{Machine};
ghost use Rattle.plan.specs.law.Machines.{machine_flow, machine_gain};
ghost use Rattle.plan.specs.inside.Sizes.{MachinesSized};
ghost use Rattle.plan.specs.inside.SumSizes.{most_part};

use case::read::{first_machine, machine_from, past_machine, station};
use case::records::Machine;
use numbers::sets::member;

// The sum of what the closure says of each machine that the set names.
fn machine_sum<F: Fn(Machine) -> i64>(case: &[i64], offset: usize, set: i64, part: F) -> i64
    requires few { machine_count case.now offset ≤ 12 }
    requires each { (m : ℕ) → m < machine_count case.now offset → F.pre part (machine_row case.now offset m) }
    requires sized { (m : ℕ) → m < machine_count case.now offset → (r : ℤ) → F.post part (machine_row case.now offset m) r → nat_abs r ≤ most_part }
    ensures { (f : Machine → ℤ) →
        ((m : ℕ) → m < machine_count case.now offset → (r : ℤ) → F.post part (machine_row case.now offset m) r → r ≡ f (machine_row case.now offset m)) →
        result ≡ sum (machine_count case.now offset) (λ m. only (member_of set m) (f (machine_row case.now offset m))) }
{
    let machines = station(case, offset).machines;
    let mut at = first_machine(case, offset);
    let mut all: i64 = 0;
    for m in 0..machines {
        if member(set, m) {
            all += part(machine_from(case, at));
        }
        at = past_machine(case, at);
    }
    all
}

// The machines that a set names of a station, whose rows begin at `offset`.
#[derive(Clone, Copy)]
pub(crate) struct Machines<'a> {
    pub(crate) case: &'a [i64],
    pub(crate) offset: usize,
    pub(crate) set: i64,
    ghost sized: { MachinesSized case.now offset },
}

impl Machines<'_> {
    // The sum of their flows.
    #[tactic(auto, unfolding(crate::specs::law::Machines::machine_flow, crate::specs::law::Machines::flow_part))]
    pub(crate) fn flow(&self) -> i64
        ensures { result ≡ machine_flow self.now.case.now self.now.offset self.now.set }
    {
        machine_sum(self.case, self.offset, self.set, |m| m.flow)
    }

    // The sum of what their ratios are above 1,000.
    #[tactic(auto, unfolding(crate::specs::law::Machines::machine_gain, crate::specs::law::Machines::gain_part))]
    pub(crate) fn gain(&self) -> i64
        ensures { result ≡ machine_gain self.now.case.now self.now.offset self.now.set }
    {
        machine_sum(self.case, self.offset, self.set, |m| m.ratio - 1000)
    }
}
