// What the ledger answers.
use numbers::answer::No;

// The six figures of a region, from time s to time t.
#[derive(Clone, Copy, Debug, PartialEq, Eq)]
pub struct Figures {
    pub nodes: usize,
    pub pipes: usize, // inner pipes
    pub opening: i64, // gas in the inner pipes at s
    pub closing: i64, // and at t
    pub brought: i64, // gas brought in
    pub residual: usize,
}

// The figures, or the first "no".
pub type Ledger = Result<Figures, No>;
