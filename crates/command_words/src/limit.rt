//! How long a request may take (MongoDB manual, "maxTimeMS").

ghost use Rattle.std.specs.Prelude.{◌≡◌};
ghost use Rattle.command_model.specs.Command as model;
ghost use Rattle.opmsg_frames.specs.RequestMeanings.{IsBody};
ghost use Rattle.opmsg_model.specs.Requests as wire;

use command_fields::number_given;
use opmsg_frames::Body;

/// Returns how many milliseconds a request with this body may take, 0 where there is no limit.
pub fn time_limit(body: &Body) -> u64
    ensures { (meant : wire.Request) → IsBody body.now meant.body → result ≡ model.time_limit meant }
{
    match body {
        Body::Read { doc, .. } => number_given(doc, "maxTimeMS").unwrap_or(0),
        Body::Faulty(_) => 0,
    }
}
