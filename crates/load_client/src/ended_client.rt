//! A client of a load that has ended.

use client_run::{DriveFault, Driven};
use client_session::Client;
use stop_flag::StopSeat;

/// A client of a load that has ended.
pub struct EndedClient {
    /// The client, with what it holds.
    pub client: Client,
    /// Its seat at the stop flag.
    pub seat: StopSeat,
    /// How it ended. After a fault its seat has set the flag.
    pub driven: Result<Driven, DriveFault>,
}

impl Drop for EndedClient {
    fn drop(self) {
        let EndedClient {
            client,
            seat,
            driven,
        } = self;
        drop(client);
        drop(seat);
        drop(driven);
    }
}
