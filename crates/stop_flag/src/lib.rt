//! A flag by which the parts of a run stop one another: each part has a seat, by which it sets the flag
//! or looks whether it is set, and when the parts have ended the seats tell who has set it.
#![tactic(auto)]

mod flag_view;
mod flags;
mod laws;
mod seat_end;
mod stop_flag;
mod stop_seat;

pub use laws::nobody_stopped;
pub use seat_end::SeatEnd;
pub use stop_flag::StopFlag;
pub use stop_seat::StopSeat;
