//! What the ended clients of a load have left.

ghost use Rattle.std.specs.Prelude.{All, IsTrue};
ghost use Rattle.load_run.specs.Ends.{HasFinished};

use client_run::Driven;
use load_client::EndedClient;

/// Whether every client has finished.
pub fn have_finished(clients: &[EndedClient]) -> bool
    ensures { IsTrue result → All HasFinished clients.now }
{
    clients
        .iter()
        .all(|client| client.driven == Ok(Driven::Finished))
}
