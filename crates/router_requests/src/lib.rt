//! The requests of a router that are not answered yet, and what they request of the other nodes.
#![tactic(auto)]

mod again;
mod asker;
mod asks;
mod begins;
mod fates;
mod given_up;
mod list;
mod mail;
mod moments;
mod next;
mod read;
mod read_asks;
mod reads;
mod refused;
mod tables;
mod times;
mod work;
mod write;
mod writes;

pub use asker::Asker;
pub use begins::Begun;
pub use fates::{Fate, Stay};
pub use given_up::lack_refusal;
pub use list::OpenList;
pub use mail::{add_all, list_of, spare_list};
pub use next::Next;
pub use read::{OpenRead, Parts, Telling};
pub use reads::{Sends, has_come};
pub use tables::was_created;
pub use times::also_told;
pub use work::{OpenRequest, Wait, Work};
pub use write::OpenWrite;
pub use writes::{WriteNext, WriteSends};
