//! The session of a client.

ghost use Rattle.std.specs.Prelude.{◌≡◌, IfOk};
ghost use Rattle.client_session.specs.Table.{begun, session_after};

use collections::Text;
use dispatch_types::Dispatch;
use std::alloc::{AllocError, Global};

/// A session that READY began (Gateway Events, Ready).
pub struct Session {
    pub id: Text,
    /// The URL for a resume.
    pub url: Text,
    /// The number of the last dispatch that was read.
    pub number: u64,
}

impl Drop for Session {
    fn drop(self) {
        let Session { id, url, number: _ } = self;
        drop(id);
        drop(url);
    }
}

/// The session that a dispatch begins: `Some` exactly if it is READY.
pub(crate) fn begun(
    alloc: Global,
    dispatch: &Dispatch,
    number: u64,
) -> Result<Option<Session>, AllocError>
    ensures { IfOk result (λ session. session ≡ begun dispatch.now number) }
{
    let Dispatch::Ready(ready) = dispatch else {
        return Ok(None);
    };
    Ok(Some(Session {
        id: ready.session.copy(alloc)?,
        url: ready.url.copy(alloc)?,
        number,
    }))
}

/// Holds the number of a dispatch, in the session that it begins, if it begins one.
pub(crate) fn hold(session: &mut Option<Session>, begun: Option<Session>, number: u64)
    ensures { session.new ≡ session_after begun number session.old }
{
    if begun.is_some() {
        *session = begun;
    } else if let Some(session) = session {
        session.number = number;
    }
}
