//! Laws of answers: what a line answers leaves out no other reply that comes exactly where its cause is; so a legal trace leaves out
//! nothing.
//!
//! It has no code.
#![tactic(auto)]

mod laws;

pub use laws::{
    aborts_leave_out_nothing, announcements_leave_out_nothing, backups_leave_out_nothing,
    begins_leave_out_nothing, caused_replies_are_answered, collects_leave_out_nothing,
    commits_leave_out_nothing, crashes_leave_out_nothing, deliveries_leave_out_nothing,
    forgets_leave_out_nothing, gets_leave_out_nothing, legal_lines_leave_out_nothing,
    legal_traces_leave_out_nothing, locals_leave_out_nothing, managers_leave_out_nothing,
    orphans_leave_out_nothing, puts_leave_out_nothing, starts_leave_out_nothing,
};
