// Document 01 as definitions (specs/) and the demands as theorems over them (proofs/). It has no
// code: `unix_socket` is proved equal to these definitions.
#![tactic(auto)]
