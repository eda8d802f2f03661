//! The law of requests.
ghost use Rattle.std.specs.Prelude.{◌≡◌};
ghost use Rattle.opmsg_model.specs.Requests as wire;
ghost use Rattle.opmsg_frames.specs.RequestMeanings.{IsMeant};
ghost use Rattle.opmsg_frames.specs.declared.request.Request.{Request};
ghost use Rattle.protocol_model.specs.Requests.{request_of};

/// A request from a framer is the one of the definitions that `request_of` returns.
pub fn one_meaning()
    ensures { (request : Request) (meant : wire.Request) → IsMeant request meant → meant ≡ request_of request }
{}
