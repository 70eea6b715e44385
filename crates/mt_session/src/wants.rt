//! What a request wants of a session in a thread of its own.
ghost use Rattle.mt_session.specs.SharedServing.{IsWanted};

use crate::serving::End;
use mt_requests::request::Request;

/// What a request wants of its session.
#[derive(Clone, Copy)]
pub(crate) enum Wants {
    /// To be done while the desk is held.
    Desk {
        /// Whether other sessions may find something then, or the end of what they follow.
        wakes: bool,
        /// How the session ends by it, if it does.
        end: Option<End>,
    },
    /// So many posts, as many as wait.
    Waiting(u64),
    /// So many posts, as they come.
    Coming(u64),
    /// The posts that are left, and the end of the watcher.
    Left,
}

/// What a request wants of its session.
pub(crate) fn wants_of(request: &Request) -> Wants
    ensures { IsWanted result request.now }
{
    match request {
        Request::Run(_) => Wants::Desk {
            wakes: true,
            end: None,
        },
        Request::Ask(_) | Request::Watch(_) => Wants::Desk {
            wakes: false,
            end: None,
        },
        Request::Take(most) => Wants::Waiting(*most),
        Request::Follow(most) => Wants::Coming(*most),
        Request::Close => Wants::Left,
        Request::Quit => Wants::Desk {
            wakes: false,
            end: Some(End::Quit),
        },
        Request::Stop => Wants::Desk {
            wakes: true,
            end: Some(End::Stop),
        },
    }
}
