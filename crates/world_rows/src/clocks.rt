//! Clocks and gates.

use outside::clock::Clock;
use outside::gate::{Gate, Place};
use outside::standard::WallClock;
use outside_memory::{FixedClock, OpenGate};
use std::io;

// The first of January 2020.
const LATE: u64 = 1_577_836_800_000;

/// Prints the moment of a fixed clock, and whether the system's gives a moment after 2019; before that an open gate is passed.
pub fn tell_clocks(rt: HostRuntime) -> io::Result<()> {
    OpenGate.pass(Place::Half);
    let fixed = FixedClock(1_700_000_000_000).now();
    let is_late = WallClock::new(rt).now() > LATE;
    println!(rt; "clocks: {fixed}, after 2019: {is_late}")?;
    Ok(())
}
