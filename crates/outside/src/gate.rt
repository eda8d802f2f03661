//! Places in the program where a test may stop it.

/// A place that the program passes.
#[derive(Clone, Copy, Debug, PartialEq, Eq)]
pub enum Place {
    /// Before a node's second worker evaluates its half of a request.
    Half,
}

/// What is called at these places.
pub trait Gate {
    /// The program is at this place.
    fn pass(&self, place: Place);
}
