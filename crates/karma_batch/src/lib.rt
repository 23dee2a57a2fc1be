//! Karma's rule of one quantum by levels of credits: a quantum of billions of loans in a few passes over the rows.
//!
//! Loan by loan, the richest borrowers fall in step, and the poorest donors rise in step. So a quantum ends with the
//! borrowers down at one level of credits and the donors up at another, but for those who ran out of wants, credits
//! or slices before. The counts of loans and of lent slices are known beforehand. A level is found among
//! ramps: while the level falls, a row moves a slice for each level from where its credits are down to where its room is
//! used up. A first guess from their means and then tangents meet the level in a few looks at all ramps, with small
//! numbers and with great ones. What is left at a level goes by the users' numbers.
#![tactic(auto)]

mod batch;
mod guess;
mod level;
mod ramp;
mod side;
mod spread;

pub use batch::batch_quantum;
