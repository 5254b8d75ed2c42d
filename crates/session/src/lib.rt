//! What a session is: the promise of the whole program, as a relation of bytes.
//!
//! Definitions alone. `Transcript` is what is printed, `Callers` what became of each caller's calls, and
//! `Session` ties a script, its transcript and the images before and after it to one history of a plain map.
#![tactic(auto)]
