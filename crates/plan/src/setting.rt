// An arc's setting, read off the arc's kind and the plan's number. Document 01 names the form: "arc setting enum whose active case holds direction and
// mode enums".
ghost use Rattle.std.specs.Prelude.{◌≡◌};
ghost use Rattle.plan.specs.law.Setting.{directed, combined_of, valve_of, active_of, setting_of};

#[derive(Clone, Copy, Debug, PartialEq, Eq)]
pub enum Way {
    Forward,
    Backward,
}

#[derive(Clone, Copy, Debug, PartialEq, Eq)]
pub enum Mode {
    Open,
    Regulating,
    Compressing,
}

// A number that stands for nothing at the arc's kind is unknown.
#[derive(Clone, Copy, Debug, PartialEq, Eq)]
pub enum Setting {
    Unknown,
    Off,
    Active { way: Way, mode: Mode },
}

#[tactic(auto, unfolding(crate::specs::law::Setting::directed))]
fn directed(mode: Mode, n: usize) -> Setting
    ensures { result ≡ directed mode n }
{
    match n {
        1 => Setting::Active {
            way: Way::Forward,
            mode,
        },
        2 => Setting::Active {
            way: Way::Backward,
            mode,
        },
        _ => Setting::Unknown,
    }
}

#[tactic(auto, unfolding(crate::specs::law::Setting::combined_of))]
fn combined(n: usize) -> Setting
    ensures { result ≡ combined_of n }
{
    if n <= 2 {
        directed(Mode::Regulating, n)
    } else {
        directed(Mode::Compressing, n - 2)
    }
}

#[tactic(auto, unfolding(crate::specs::law::Setting::valve_of))]
fn valve(n: usize) -> Setting
    ensures { result ≡ valve_of n }
{
    if n == 1 {
        Setting::Active {
            way: Way::Forward,
            mode: Mode::Open,
        }
    } else {
        Setting::Unknown
    }
}

// A number above 0, by the kind.
#[tactic(auto, unfolding(crate::specs::law::Setting::active_of))]
fn active(kind: usize, n: usize) -> Setting
    ensures { result ≡ active_of kind n }
{
    match kind {
        0 => valve(n),
        1 | 2 => Setting::Unknown,
        3 => directed(Mode::Open, n),
        4 => directed(Mode::Regulating, n),
        5 => directed(Mode::Compressing, n),
        _ => combined(n),
    }
}

#[tactic(auto, unfolding(crate::specs::law::Setting::setting_of))]
pub(crate) fn setting_of(kind: usize, number: i64) -> Setting
    ensures { result ≡ setting_of kind number }
{
    match usize::try_from(number) {
        Ok(0) => Setting::Off,
        Ok(n) => active(kind, n),
        Err(_) => Setting::Unknown,
    }
}
