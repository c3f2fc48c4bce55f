//! What is kept of what a link gave and was sent.
ghost use Rattle.std.specs.Prelude.{◌≡◌};

use crate::lane::LanePass;
use gate_outside::sending::Sending;
use std::marker::Model;

// The lists of a script, or the passes of an end, which have no bytes and of which proofs know what was
// taken and put.
#[derive(Drop)]
enum Told {
    Lists {
        gave: Vec<Sending>,
        sent: Vec<Sending>,
    },
    Passes {
        takes: LanePass,
        puts: LanePass,
    },
}

/// What is kept of what was taken from the other end of a link and of what was put there. A clause sees
/// the two lists.
#[derive(Drop)]
pub struct KeptTale {
    told: Told,
}

impl Model for KeptTale {
    ghost use Rattle.thread_outside.specs.KeptTales.{gave_in, sent_in};
    ghost use Rattle.thread_outside.specs.Peers.{TaleLists};

    ghost Value = { TaleLists };

    ghost view = { λ t. record {
      gave = gave_in t.told;
      sent = sent_in t.told;
    } };
}

impl KeptTale {
    // What these lists tell.
    pub(crate) fn of_lists(gave: Vec<Sending>, sent: Vec<Sending>) -> KeptTale
        ensures { result ≡ record {
          gave = gave.items;
          sent = sent.items;
        } }
    {
        KeptTale {
            told: Told::Lists { gave, sent },
        }
    }

    // What the passes of an end tell.
    pub(crate) fn of_passes(takes: LanePass, puts: LanePass) -> KeptTale
        ensures { result ≡ record {
          gave = takes.me.view.client.taken;
          sent = puts.me.view.client.put;
        } }
    {
        KeptTale {
            told: Told::Passes { takes, puts },
        }
    }
}
