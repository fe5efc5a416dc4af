//! Steps: how much a search or a reaction does, counted for proofs alone.
//!
//! A step is one try to make two terms equal, or one tuple that is looked at. Contracts bound how
//! many a call makes; the program carries no number.
#![tactic(auto)]

mod steps;

pub use steps::Steps;
