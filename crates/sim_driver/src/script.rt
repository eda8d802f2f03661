//! What a script has beside the nodes.

ghost use Rattle.std.specs.Prelude.{◌≡◌, ◌<◌, IfOk, OnOk, vec_len};
ghost use Rattle.sim_driver.specs.Scripts.{ClosesLink, links_from, new_script, script_view, with_closed};

use crate::delivered::Delivered;
use crate::link::Link;
use bson_values::Memory;
use std::alloc::Global;

/// Where the routers begin, the link of each, in order, and which messages were delivered.
#[derive(Drop)]
pub struct Script {
    /// The place of router 0 among the nodes; that of router r is r more.
    pub first_router: usize,
    pub links: Vec<Link>,
    /// How many links were opened or are next; the one after these has this number.
    pub opened: u32,
    pub delivered: Delivered,
}

/// Returns so many new links, numbered from 0.
fn new_links(alloc: Global, count: u32) -> Result<Vec<Link>, Memory>
    ensures { IfOk result (λ links. links.items ≡ links_from 0 count) }
{
    let mut links = Vec::new(alloc);
    'links: for number in 0..count {
        links.push(Link::new(alloc, number))?;
    }
    Ok(links)
}

impl Script {
    /// Returns what a script of so many routers, of which the first has this place, has before its first line. Fails if out of memory, or where links can't be
    /// counted.
    pub fn new(alloc: Global, first_router: usize, routers: usize) -> Result<Script, Memory>
        ensures view { IfOk result (λ script. script_view script ≡ new_script first_router routers) }
        ensures links { IfOk result (λ script. vec_len script.links ≡ routers) }
    {
        let Ok(opened) = u32::try_from(routers) else {
            return Err(Memory);
        };
        match new_links(alloc, opened) {
            Ok(links) => Ok(Script {
                first_router,
                links,
                opened,
                delivered: Delivered::new(alloc),
            }),
            Err(e) => Err(e),
        }
    }

    /// The link of a router is closed: its next one is not open yet. Returns `Memory` where links can't be counted, and then changes nothing.
    pub fn close(&mut self, alloc: Global, router: usize) -> Result<(), Memory>
        requires { router < vec_len self.old.links }
        ensures closed { OnOk result (script_view self.new ≡ with_closed (script_view self.old) router) }
        ensures router { self.new.first_router ≡ self.old.first_router }
        ensures links { vec_len self.new.links ≡ vec_len self.old.links }
    {
        if self.opened == u32::MAX {
            return Err(Memory);
        }
        self.links[router] = Link::next(alloc, self.opened);
        self.opened += 1;
        Ok(())
    }

    /// The node at a place is started again: if it is a router whose link is open, that link is closed. Returns the router then; `Memory` where links can't be
    /// counted.
    pub fn close_at(&mut self, alloc: Global, at: usize) -> Result<Option<u64>, Memory>
        ensures closed { IfOk result (λ closed. ClosesLink (script_view self.old) at (script_view self.new) closed) }
        ensures router { self.new.first_router ≡ self.old.first_router }
        ensures links { vec_len self.new.links ≡ vec_len self.old.links }
    {
        if at < self.first_router {
            return Ok(None);
        }
        let router = at - self.first_router;
        if router >= self.links.len() {
            return Ok(None);
        }
        if !self.links[router].is_open() {
            return Ok(None);
        }
        match self.close(alloc, router) {
            Ok(()) => Ok(Some(router as u64)),
            Err(e) => Err(e),
        }
    }
}
