//! The open requests of a router.

ghost use Rattle.std.specs.Prelude.{◌≡◌, true};
ghost use Rattle.router_requests.specs.Order.{place_of, rises};

use crate::fates::{Fate, Stay};
use crate::work::{OpenRequest, Wait};
use bson_values::Memory;
use cluster_base::{NodeId, Time};
use pipeline_eval::Rows;
use protocol_model::HalfFault;
use read_parts::Target;
use std::alloc::Global;

/// The open requests of a router in one of its lives, in the order in which it took them.
#[derive(Drop)]
pub struct OpenList {
    // How many requests were taken.
    pub(crate) taken: u64,
    // In boxes, so that taking one out moves no other.
    pub(crate) requests: Vec<Box<OpenRequest>>,
    ghost rising: { rises 0 taken requests.items ≡ true },
}

impl OpenList {
    ghost use Rattle.std.specs.Prelude.{◌≡◌, ◌<◌, ◌^◌, ◌-◌, ◌+◌, ◌++◌, ◌∷◌, [], ℕ, List, Some, true, map, IfOk, OnOk};
    ghost use Rattle.std.specs.Option.{option_map};
    ghost use Rattle.node_model.specs.RouterRequests as requested;
    ghost use Rattle.node_model.specs.RouterNext as nexts;
    ghost use Rattle.node_model.specs.States as states;
    ghost use Rattle.protocol_model.specs.Bodies.{rows_view};
    ghost use Rattle.read_parts.specs.Parts.{target_view};
    ghost use Rattle.router_requests.specs.Fates.{fated, stay_of};
    ghost use Rattle.router_requests.specs.Lists.{has_room, has_room_for_part, opens_of, taken_of};
    ghost use Rattle.router_requests.specs.Turns.{settled};
    ghost use Rattle.router_requests.specs.Works.{numbers_of, open_view, told_by, wait_view};
    ghost use Rattle.router_requests.specs.declared.fates.Fate.{Fate};

    /// Returns the list before a request was taken.
    pub fn new(alloc: Global) -> OpenList
        ensures taken { taken_of result ≡ 0 }
        ensures opens { (router life : ℕ) → opens_of router life result ≡ [] }
    {
        OpenList {
            taken: 0,
            requests: Vec::new(alloc),
        }
    }

    /// Returns how many requests were taken.
    pub fn taken(&self) -> u64
        ensures { result ≡ taken_of self.now }
    {
        self.taken
    }

    /// Returns the open requests, in the order in which they were taken.
    pub fn as_slice(&self) -> &[Box<OpenRequest>]
        ensures { (router life : ℕ) → map (λ q. open_view router life q.value) result.now ≡ opens_of router life self.now }
    {
        &self.requests
    }

    /// Returns the open request with this count.
    pub fn find(&self, count: u64) -> Option<&OpenRequest>
        ensures { (router life : ℕ) → option_map (λ q. open_view router life q.now) result ≡ states.open_with count (opens_of router life self.now) }
    {
        let place = self.place(count);
        if place < self.requests.len() {
            Some(&self.requests[place])
        } else {
            None
        }
    }

    // Returns how many requests come before that with this count; all where there is none.
    fn place(&self, count: u64) -> usize
        ensures { result ≡ place_of count self.now.requests.items }
    {
        match self
            .requests
            .binary_search_by_key(&count, |request| request.count)
        {
            Ok(place) => place,
            Err(_) => self.requests.len(),
        }
    }

    /// Makes room for one request more. Returns `Memory` if memory runs out. The requests are the same either way.
    pub fn reserve(&mut self) -> Result<(), Memory>
        ensures room { OnOk result (has_room self.new ≡ true) }
        ensures taken { taken_of self.new ≡ taken_of self.old }
        ensures opens { (router life : ℕ) → opens_of router life self.new ≡ opens_of router life self.old }
    {
        self.requests.reserve(1)?;
        Ok(())
    }

    /// Counts a request that is answered at once.
    #[tactic(auto, using(crate::proofs::Places::rises_more))]
    pub fn count_one(&mut self)
        requires { taken_of self.old < 2 ^ 64 - 1 }
        ensures taken { taken_of self.new ≡ taken_of self.old + 1 }
        ensures opens { (router life : ℕ) → opens_of router life self.new ≡ opens_of router life self.old }
    {
        self.taken += 1;
    }

    /// Appends the next request to the others, where there is room. Takes no memory.
    #[tactic(auto, using(crate::proofs::Places::rises_pushed))]
    pub fn push(&mut self, request: Box<OpenRequest>)
        requires room { has_room self.old ≡ true }
        requires next { request.value.count ≡ taken_of self.old + 1 }
        ensures taken { taken_of self.new ≡ taken_of self.old + 1 }
        ensures opens { (router life : ℕ) → opens_of router life self.new ≡ opens_of router life self.old ++ open_view router life request.value ∷ [] }
    {
        self.taken = request.count;
        self.requests.push_reserved(request);
    }

    /// Removes the request with this count.
    #[tactic(auto, using(crate::proofs::Places::rises_removed, crate::proofs::Places::without_at, crate::proofs::Places::none_out))]
    pub fn remove(&mut self, count: u64)
        ensures taken { taken_of self.new ≡ taken_of self.old }
        ensures opens { (router life : ℕ) → opens_of router life self.new ≡ states.without count (opens_of router life self.old) }
    {
        let place = self.place(count);
        if place < self.requests.len() {
            let _ = self.requests.remove(place);
        }
    }

    /// Makes room for one part more of the request with this count. Returns `Memory` if memory runs out. The requests are the same either way.
    pub fn reserve_part(&mut self, count: u64) -> Result<(), Memory>
        ensures room { OnOk result (has_room_for_part count self.new ≡ true) }
        ensures taken { taken_of self.new ≡ taken_of self.old }
        ensures opens { (router life : ℕ) → opens_of router life self.new ≡ opens_of router life self.old }
    {
        let place = self.place(count);
        if place < self.requests.len() {
            self.requests[place].reserve_part()?;
        }
        Ok(())
    }

    /// A shard returned its part of the read with this count, for which there is room. It is noted if it is the first of that shard. Takes no memory.
    pub fn note_part(&mut self, count: u64, shard: NodeId, told: Result<Rows, HalfFault>)
        requires room { has_room_for_part count self.old ≡ true }
        ensures taken { taken_of self.new ≡ taken_of self.old }
        ensures opens { (router life : ℕ) (q : states.Open) → states.open_with count (opens_of router life self.old) ≡ Some q →
            opens_of router life self.new ≡ states.replaced (nexts.with_part q shard.0 (rows_view told)) (opens_of router life self.old) }
    {
        let place = self.place(count);
        if place < self.requests.len() {
            self.requests[place].note(shard, told);
        }
    }

    /// The read with this count is of this time now, unless one was named, and waits for this; it was sent to these shards.
    pub fn reach(&mut self, count: u64, time: Time, wait: Wait, targets: Vec<Target>)
        ensures taken { taken_of self.new ≡ taken_of self.old }
        ensures opens { (router life : ℕ) (q : states.Open) → states.open_with count (opens_of router life self.old) ≡ Some q →
            opens_of router life self.new
            ≡ states.replaced (nexts.with_work q (wait_view wait) (map target_view targets.items) (requested.reached time.0 q.work))
            (opens_of router life self.old) }
    {
        let place = self.place(count);
        if place < self.requests.len() {
            self.requests[place].reach(time, wait, targets);
        }
    }

    /// These shards have returned their time to the request with this count now.
    pub fn hear(&mut self, count: u64, told: Vec<NodeId>)
        ensures taken { taken_of self.new ≡ taken_of self.old }
        ensures opens { (router life : ℕ) (q : states.Open) → states.open_with count (opens_of router life self.old) ≡ Some q →
            opens_of router life self.new ≡ states.replaced (told_by q (numbers_of told.items)) (opens_of router life self.old) }
    {
        let place = self.place(count);
        if place < self.requests.len() {
            self.requests[place].hear(told);
        }
    }

    /// The request with this count stays open like this.
    pub fn stay(&mut self, count: u64, stay: Stay)
        ensures taken { taken_of self.new ≡ taken_of self.old }
        ensures opens { (router life : ℕ) (q : states.Open) → states.open_with count (opens_of router life self.old) ≡ Some q →
            opens_of router life self.new ≡ states.replaced (stay_of q stay) (opens_of router life self.old) }
    {
        let place = self.place(count);
        if place < self.requests.len() {
            self.requests[place].stay(stay);
        }
    }

    // The request at a place has its fate, if one is there. Returns the place of the next one. Takes no memory.
    fn settle_at(&mut self, place: usize, fate: Fate) -> usize
        ensures taken { taken_of self.new ≡ taken_of self.old }
        ensures opens { (router life : ℕ) (fates : List Fate) →
            settled (λ q. open_view router life q.value) result self.new.requests.items fates
            ≡ settled (λ q. open_view router life q.value) place self.old.requests.items (fate ∷ fates) }
    {
        if place >= self.requests.len() {
            return place;
        }
        match fate {
            Fate::Stays(stay) => {
                self.requests[place].stay(stay);
                place + 1
            }
            Fate::Leaves => {
                let _ = self.requests.remove(place);
                place
            }
        }
    }

    /// The open requests have these fates, in their order. Takes no memory.
    pub fn settle(&mut self, fates: Vec<Fate>)
        ensures taken { taken_of self.new ≡ taken_of self.old }
        ensures opens { (router life : ℕ) → opens_of router life self.new ≡ fated (opens_of router life self.old) fates.items }
    {
        let mut place = 0;
        for fate in fates {
            place = self.settle_at(place, fate);
        }
    }
}
