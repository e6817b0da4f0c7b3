// Files for the programs: a call that was interrupted is made again, and one that failed is never taken for a file's end. No contract
// can say what is read or written; these say how much of the lent room is filled. A loop has to end, and nothing says that a file or
// its interruptions do, so each loop counts its calls down from a number that no run uses up.
#![tactic(auto)]

pub mod load;
pub mod read;
#[cfg(test)]
mod tests;
pub mod told;
pub mod write;
