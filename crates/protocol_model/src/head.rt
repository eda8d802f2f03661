//! What is stored of a request whose documents were moved out.

ghost use Rattle.std.specs.Prelude.{◌≡◌};
ghost use Rattle.protocol_model.specs.Heads.{head_request};
ghost use Rattle.protocol_model.specs.Requests.{request_of};

use ghost_list::GhostList;
use opmsg_frames::{Body, Form, Request};

/// What the reply to a request needs of it. The request itself exists only for proofs.
#[derive(Drop)]
pub struct Head {
    pub id: i32,
    pub more: bool,
    pub form: Form,
    pub came: GhostList<Request, u8>,
}

impl Head {
    /// Returns the head and the body of a request; its own bytes are freed.
    pub fn of(request: Request) -> (Head, Body)
        ensures request { head_request result.0 ≡ request_of request }
        ensures body { result.1 ≡ request.body }
    {
        let came = GhostList::new().with(&request, &0);
        let head = Head {
            id: request.id,
            more: request.more,
            form: request.form,
            came,
        };
        (head, request.body)
    }
}
