//! How far a session has come (Language Server Protocol 3.17, "Server lifecycle").

ghost use Rattle.std.specs.Prelude.{◌≡◌};
ghost use Rattle.serde_json.specs.View.{view};
ghost use Rattle.bl_lsp.specs.Deeds.{answer_to, phase_after, phase_behind};

use crate::kind::{Kind, Request, kind_of, request_of};
use crate::replies::Fault;
use serde_json::Value;

#[derive(Clone, Copy, PartialEq, Eq, Debug)]
pub enum Phase {
    /// Before `initialize`.
    Fresh,
    Running,
    /// Behind `shutdown`.
    Shut,
}

/// What a request is answered.
#[derive(Clone, Copy, PartialEq, Eq, Debug)]
pub enum Answer {
    Capabilities,
    Null,
    Refused(Fault),
}

/// What a request is answered in a phase.
pub fn answer_to(phase: Phase, request: Request) -> Answer
    ensures { result ≡ answer_to phase request }
{
    match phase {
        Phase::Fresh => match request {
            Request::Initialize => Answer::Capabilities,
            Request::Shutdown | Request::Other => Answer::Refused(Fault::NotInitialized),
        },
        Phase::Running => match request {
            Request::Initialize => Answer::Refused(Fault::InvalidRequest),
            Request::Shutdown => Answer::Null,
            Request::Other => Answer::Refused(Fault::MethodNotFound),
        },
        Phase::Shut => Answer::Refused(Fault::InvalidRequest),
    }
}

/// The phase behind a request.
fn phase_behind(phase: Phase, request: Request) -> Phase
    ensures { result ≡ phase_behind phase request }
{
    match answer_to(phase, request) {
        Answer::Capabilities => Phase::Running,
        Answer::Null => Phase::Shut,
        Answer::Refused(_) => phase,
    }
}

/// The phase behind a message.
pub fn phase_after(phase: Phase, message: &Value) -> Phase
    ensures { result ≡ phase_after phase (view message.now) }
{
    match kind_of(message) {
        Kind::Request => phase_behind(phase, request_of(message)),
        Kind::Notice | Kind::Answer | Kind::Invalid => phase,
    }
}
