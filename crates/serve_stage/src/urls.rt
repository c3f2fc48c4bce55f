//! The URLs of workers.

ghost use Rattle.std.specs.Prelude.{◌≡◌, ◌+◌, ◌≤◌, IfOk};
ghost use Rattle.serve_stage.specs.Urls.{worker_url};

use collections::Text;
use std::alloc::{AllocError, Global};

/// The URL of the worker with this number, of those whose ports begin with this one.
///
/// # Errors
/// Out of memory.
pub(crate) fn worker_url(alloc: Global, port: u16, number: u8) -> Result<Text, AllocError>
    requires { port + number ≤ 65535 }
    ensures { IfOk result (λ url. url ≡ worker_url port number) }
{
    let port = port + u16::from(number);
    Ok(Text::from_string(format!(in alloc; "ws://127.0.0.1:{port}")?))
}
