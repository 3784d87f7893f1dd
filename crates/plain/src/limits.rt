// The scratch bytes that the judge is lent, document 02, U7; specs/PlainCall.antt has the same number.
pub const SCRATCH_LENGTH: usize = 256;
