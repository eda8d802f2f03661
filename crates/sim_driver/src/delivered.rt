//! Which messages were delivered.

ghost use Rattle.std.specs.Prelude.{◌≡◌, ℕ, [], OnOk};
ghost use Rattle.sim_driver.specs.Scripts.{AreDelivered, is_delivered, marked};

use bson_values::Memory;
use std::alloc::Global;
use std::marker::Model;

/// Of the messages, in order of sending, whether they were delivered.
#[derive(Drop)]
pub struct Delivered {
    flags: Vec<bool>,
    // Those before this place were.
    next: usize,
}

impl Model for Delivered {
    ghost use Rattle.std.specs.Prelude.{Bool, List};

    ghost Value = { List Bool };

    ghost use Rattle.sim_driver.specs.Scripts.{AreDelivered};

    ghost view = { λ d. d.flags.items };

    ghost invariant = { λ d. AreDelivered d.next d.flags.items };
}

/// Notes the message at a place.
fn mark(flags: &mut Vec<bool>, place: usize) -> Result<(), Memory>
    ensures marked { OnOk result (flags.new.items ≡ marked place flags.old.items) }
    ensures kept { (before : ℕ) → AreDelivered before flags.old.items → AreDelivered before flags.new.items }
{
    'places: while flags.len() <= place {
        flags.push(false)?;
    }
    flags[place] = true;
    Ok(())
}

/// Returns the first place, from `next` on, of a message that was not delivered.
fn first_of(flags: &Vec<bool>, next: usize) -> usize
    requires { AreDelivered next flags.now.items }
    ensures { AreDelivered result flags.now.items }
{
    let mut place = next;
    'places: while place < flags.len() && flags[place] {
        place += 1;
    }
    place
}

impl Delivered {
    /// None was.
    pub fn new(alloc: Global) -> Delivered
        ensures { result ≡ [] }
    {
        Delivered {
            flags: Vec::new(alloc),
            next: 0,
        }
    }

    /// Marks the message at a place as delivered. If memory runs out, the contract says nothing of any mark.
    pub fn mark(&mut self, place: usize) -> Result<(), Memory>
        ensures { OnOk result (self.new ≡ marked place self.old) }
    {
        mark(&mut self.flags, place)
    }

    /// Returns whether the message at a place was delivered.
    pub fn has(&self, place: usize) -> bool
        ensures { result ≡ is_delivered self.now place }
    {
        if place >= self.flags.len() {
            return false;
        }
        self.flags[place]
    }

    /// Returns a place before which all were delivered.
    pub fn next(&mut self) -> usize
        ensures before { AreDelivered result self.old }
        ensures same { self.new ≡ self.old }
    {
        self.next = first_of(&self.flags, self.next);
        self.next
    }
}
