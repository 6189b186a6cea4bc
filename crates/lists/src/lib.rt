//! Laws of lists and of truth values that no other crate of ours owns (proofs/), and the lists that they are of (specs/Lists.antt). No code.
#![tactic(auto)]
