//! What a run is asked, what its lines do and answer, and what AFT promises of the whole.
//!
//! The crate has the words for it alone, and no code: the course of each kind of line, the cause of each reply,
//! which traces are legal, and the promise. What one history means is said in `aft_model`.
#![tactic(auto)]

mod laws;

pub use laws::replies_are_exact;
