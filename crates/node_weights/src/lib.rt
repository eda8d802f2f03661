//! Deliveries of messages come to an end.
#![tactic(auto)]

mod laws;

pub use laws::{deliveries_end, deliveries_in_order_end, each_delivery_weighs_less};
