// What a question is answered.
ghost use Rattle.std.specs.Prelude.{◌≡◌};
ghost use Rattle.numbers.specs.law.Question.{answer, or_else};

// A question's "no": its number in the documents, the step and the place. Document 01 names the form: "refused with number, step, place".
#[derive(Clone, Copy, Debug, PartialEq, Eq)]
pub struct No {
    pub number: usize,
    pub step: usize,
    pub place: usize,
}

// A yes is `Ok(())`, so that `?` goes on past it and ends with the first "no".
pub type Answer = Result<(), No>;

pub fn ask(yes: bool, number: usize, step: usize, place: usize) -> Answer
    ensures { result ≡ answer yes number step place }
{
    if yes {
        Ok(())
    } else {
        Err(No {
            number,
            step,
            place,
        })
    }
}

// The first no of two that are both answered: `Result::and`, under the law's name. `Result::or_else` of the library is another question.
pub fn or_else(a: Answer, b: Answer) -> Answer
    ensures { result ≡ or_else a b }
{
    a.and(b)
}
