//! What a link in memory is made from.
ghost use Rattle.std.specs.Prelude.{◌≡◌, []};

use crate::peer::Peer;
use crate::unused::Unused;
use std::marker::Model;

/// The other end of a link that is to be made, and the numbers of its calls that are to fail, from 1.
#[derive(Drop)]
pub struct LinkContent<P: Peer + Drop> {
    peer: Unused<P>,
    failing: Vec<u64>,
}

impl<P: Peer + Drop> Model for LinkContent<P> {
    ghost use Rattle.thread_outside.specs.MemLinks.{ContentState};

    ghost Value = { ContentState };

    ghost view = { λ c. record {
      turns = P.turns c.peer;
      lane = P.lane c.peer;
      failing = c.failing.items;
    } };
}

impl<P: Peer + Drop> LinkContent<P> {
    /// What a link to that other end is made from.
    pub fn new(peer: Unused<P>, failing: Vec<u64>) -> LinkContent<P>
        ensures { result ≡ record {
          turns = P.turns peer;
          lane = P.lane peer;
          failing = failing.items;
        } }
    {
        LinkContent { peer, failing }
    }

    // The other end, from which nothing was taken yet, and the numbers.
    pub(crate) fn into_parts(self) -> (P, Vec<u64>)
        ensures parts { self ≡ record {
          turns = P.turns result.0;
          lane = P.lane result.0;
          failing = result.1.items;
        } }
        ensures unused { (P.gave result.0 ≡ []) × (P.sent result.0 ≡ []) }
    {
        (self.peer.into_peer(), self.failing)
    }
}
