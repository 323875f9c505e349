//! Attempts under way.

use sat_base::Cube;

/// An attempt under way at a job.
#[derive(Debug, Drop)]
pub struct Attempt {
    pub job: u32,
    /// The attempt's number among all attempts, counted from 1.
    pub number: u32,
    /// The job's cube.
    pub cube: Cube,
    /// The numbers of the own steps that it learnt, in order, counted from 1.
    pub learnt: Vec<u64>,
}
