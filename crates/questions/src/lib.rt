// The questions without a table: UTF-8, addresses, sizes, headers, control bytes. Each is read from
// the words of a line, and its answer is written as text.
#![tactic(auto)]

pub mod question;
mod reply;
#[cfg(test)]
mod tests;
