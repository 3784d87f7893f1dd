// The limits of question 12, "has the job 6 to 9,354 bytes"; specs/JobCall.antt has the same numbers.
pub const SHORTEST: usize = 6;

pub const LONGEST: usize = 9354;
