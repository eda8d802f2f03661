//! How nodes take requests of the wire.
#![tactic(auto)]

ghost use Rattle.std.specs.Prelude.{◌≡◌};
ghost use Rattle.opmsg_model.specs.Requests as wire;
ghost use Rattle.opmsg_frames.specs.RequestMeanings.{IsMeant};

use node_traits::Node;
use opmsg_frames::Request;

/// How nodes of a type take requests that were read from a link (MongoDB manual, "Wire Protocol").
pub trait WireRequests<N: Node> {
    /// Returns the request that was read, as the node takes it.
    fn request(request: Request) -> N::Request
        ensures { (meant : wire.Request) → IsMeant request meant → N.asks result ≡ meant };
}
