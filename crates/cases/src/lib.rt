// The demands over real storage: definitions and theorems only.
#![tactic(auto)]
