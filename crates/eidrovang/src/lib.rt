// The library for C: the functions of include/eidrovang.h. None asks anything of its caller beyond
// what the header says of pointers, and each passes on the promise of the function below it.
#![tactic(auto)]

pub mod calls;
pub mod plain;
