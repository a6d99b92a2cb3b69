// The lowest layer: the form in which lists of numbers travel, and the small total operations that every question is made of.
#![tactic(auto)]

pub mod answer; // answer.rt: what a question is answered
pub mod compare; // compare.rt: orders of numbers, and a number of a list
pub mod lists; // lists.rt: lists that are made of others
pub mod sets; // sets.rt: numbers as sets
pub mod mapping; // mapping.rt: signed numbers as unsigned ones, and back
pub mod reader; // reader.rt: bytes to numbers
pub mod writer; // writer.rt: numbers to bytes
