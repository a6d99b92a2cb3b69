// What a settlement answers.
use numbers::answer::No;

// The settled total in grams, and how many rows were settled in each way, a matched pair as one.
#[derive(Clone, Copy)]
pub struct Figures {
    pub total: i64,
    pub agreed: usize,
    pub cut: usize, // cut to the smaller
    pub sender: usize, // only in the sender's record
    pub receiver: usize, // only in the receiver's record
}

// The figures, or the first "no".
pub type Settlement = Result<Figures, No>;
