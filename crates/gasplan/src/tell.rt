// Answers as the other side sees them.
ghost use Rattle.std.specs.Prelude.{◌≡◌, List, ◌≤◌, length, ℤ};
ghost use Rattle.numbers.specs.law.Told.{overlay};
ghost use Rattle.numbers.specs.law.Question.{told_with};
ghost use Rattle.gasplan.specs.law.Out.{code_of, out_of};
ghost use Rattle.gasplan.specs.inside.Fits.{Fits};

use numbers::answer::No;
use numbers::lists::copy;

// What is told of a yes: values, at most six, at the front of `out`.
pub(crate) trait Values {
    ghost told: { Self → List ℤ };

    ghost fits: { Self → Type 0 };

    fn put(self, out: &mut [i64])
        requires { (6 ≤ length out.old) × fits self }
        ensures { out.new ≡ overlay (told self) out.old };
}

// The values at the front.
#[tactic(auto, using(numbers::specs::inside::OverlayLaws::overlay_sets))]
pub(crate) fn front(out: &mut [i64], values: &[i64])
    requires { length values.now ≤ length out.old }
    ensures { out.new ≡ overlay values.now out.old }
{
    copy(values, out, 0);
}

// The number of the question that has a "no", or 0.
pub(crate) fn tell<T: Values>(out: &mut [i64], answer: Result<T, No>) -> i64
    requires { (6 ≤ length out.old) × Fits T.fits answer }
    ensures value { result ≡ code_of out.old (told_with T.told answer) }
    ensures out_after { out.new ≡ out_of out.old (told_with T.told answer) }
{
    match answer {
        Ok(values) => {
            values.put(out);
            0
        }
        Err(no) => {
            front(out, &[no.step as i64, no.place as i64]);
            no.number as i64
        }
    }
}
