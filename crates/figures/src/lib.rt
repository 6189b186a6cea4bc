//! Document 01's checked figures as a single list: the definition is in specs/, the proof of all of them jointly in proofs/. No code: the
//! figures are shown of the definitions that the calls of the other crates are held to.
#![tactic(auto)]
