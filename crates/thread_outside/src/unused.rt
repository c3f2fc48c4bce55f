//! The other end of a link in memory before the link.
ghost use Rattle.std.specs.Prelude.{◌≡◌, []};

use crate::peer::Peer;
use std::marker::Model;

/// The other end of a link that is to be made, from which nothing was taken and to which nothing was put.
/// A clause sees that end.
#[derive(Drop)]
pub struct Unused<P: Peer + Drop> {
    peer: P,
}

impl<P: Peer + Drop> Model for Unused<P> {
    ghost use Rattle.std.specs.Prelude.{◌≡◌, []};

    ghost Value = { P };

    ghost view = { λ u. u.peer };

    ghost invariant = { λ u. (P.gave u.peer ≡ []) × (P.sent u.peer ≡ []) };
}

impl<P: Peer + Drop> Unused<P> {
    // That end, from which nothing was taken yet.
    pub(crate) fn new(peer: P) -> Unused<P>
        requires { (P.gave peer ≡ []) × (P.sent peer ≡ []) }
        ensures { result ≡ peer }
    {
        Unused { peer }
    }

    // The end.
    pub(crate) fn into_peer(self) -> P
        ensures same { result ≡ self }
        ensures unused { (P.gave result ≡ []) × (P.sent result ≡ []) }
    {
        self.peer
    }
}
