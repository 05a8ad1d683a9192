// The lines of a script as text: their words, numbers, handles and bytes read, and answers written.
#![tactic(auto)]

pub mod dotted;
pub mod line;
#[cfg(test)]
mod tests;
pub mod text;
pub mod write;
