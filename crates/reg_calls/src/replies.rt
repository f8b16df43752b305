//! The replies to accepted changes.
ghost use Rattle.std.specs.Prelude.{◌≡◌, Some, None};

use reg_model::ChangeReply;

/// The reply to an accepted change that opens no handle.
pub fn accepted(number: u64) -> ChangeReply
    ensures { result ≡ record { status = 0; number = Some number; handle = None; disposition = None } }
{
    ChangeReply {
        status: 0,
        number: Some(number),
        handle: None,
        disposition: None,
    }
}

/// The reply to an accepted change that opens a handle.
pub fn opened(number: u64, disposition: Option<u32>) -> ChangeReply
    ensures { result ≡ record { status = 0; number = Some number; handle = Some number; disposition = disposition } }
{
    ChangeReply {
        status: 0,
        number: Some(number),
        handle: Some(number),
        disposition,
    }
}
