//! A gate that is open.
use outside::gate::{Gate, Place};

/// A gate that holds nothing.
#[derive(Clone, Copy, Debug, PartialEq, Eq)]
pub struct OpenGate;

impl Gate for OpenGate {
    fn pass(&self, _place: Place) {}
}
