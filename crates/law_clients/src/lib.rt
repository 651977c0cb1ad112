//! Laws of a driver on one thread that runs the lines of many clients, a turn of one and then of another: what it keeps of all of
//! them, so that a legal trace comes of it once each line is over. They put together what `law_driver` says of one line. They know of
//! machines only what all of them promise.
//!
//! It has no code.
#![tactic(auto)]

mod laws;

pub use laws::{
    clients_act, clients_begin, clients_end, clients_look, clients_sit, clients_step,
    rests_run_in_order, words_begin, words_run_in_order,
};
