// What the program prints: one line for the bytes of two files.
#![tactic(auto)]

mod decimal; // decimal.rt: numbers in decimal
pub mod files; // files.rt: from the bytes of case.bin and plan.bin to the line
mod sentence; // sentence.rt: a word and numbers
mod text; // text.rt: a text at the front of the line
mod verdict; // verdict.rt: a verdict in words
