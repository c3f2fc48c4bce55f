//! Where a client connects next.

ghost use Rattle.std.specs.Prelude.{◌≡◌, ◌<◌, nat_le, IfOk};
ghost use Rattle.gate_outside.specs.Dials.{Dials, HangsUp};
ghost use Rattle.gate_outside.specs.Links.{IsNewLink};
ghost use Rattle.client_run.specs.Drives.{url_by};
ghost use Rattle.client_run.specs.Turns.{Heads, answer_by};
ghost use Rattle.client_run.specs.declared.target.Target.TheVariants.{First};

use crate::driven::Driven;
use crate::ending::Ending;
use crate::fault::DriveFault;
use crate::target::Target;
use crate::wire::Wire;
use client_session::Client;
use collections::Text;
use gate_outside::dials::Dial;
use gate_outside::faults::Fault;
use std::marker::Model;

/// How often one after another a dial may fail before its client gives up.
const MOST_FAILURES: u64 = 9;

/// Where a client connects next, and how often one after another its dial has failed.
pub struct Route {
    first: Text,
    target: Target,
    dry_run: u64,
}

impl Drop for Route {
    fn drop(self) {
        let Route {
            first,
            target: _,
            dry_run: _,
        } = self;
        drop(first);
    }
}

impl Model for Route {
    ghost use Rattle.client_run.specs.Turns.{Way};

    ghost Value = { Way };

    ghost view = { λ r. record { first = r.first; target = r.target; dry_run = r.dry_run } };
}

impl Route {
    /// To the first URL, by a dial that has not failed.
    pub fn new(first: Text) -> Route
        ensures { result ≡ record { first = first; target = First; dry_run = 0 } }
    {
        Route {
            first,
            target: Target::First,
            dry_run: 0,
        }
    }

    // The URL that is dialled next.
    fn url<'a>(&'a self, client: &'a Client) -> &'a str
        ensures { result.now ≡ url_by self.now.first self.now.target client.now.session }
    {
        match self.target {
            Target::First => self.first.as_str(),
            Target::Resume => match client.resume_url() {
                Some(url) => url,
                None => self.first.as_str(),
            },
        }
    }

    /// Opens a link.
    pub fn open_link<D: Dial>(&mut self, dial: &mut D, client: &Client) -> Result<D::Wire, Fault>
        requires same { self.old.dry_run ≡ (D.tale dial.old).dry_run }
        requires wet { self.old.dry_run < 9 }
        ensures dials { Dials (D.tale dial.old) (D.tale dial.new) (url_by self.old.first self.old.target client.now.session) result }
        ensures new_link { IfOk result (λ l. IsNewLink (D.Wire.tale l) (D.Wire.faults l)) }
        ensures route { self.new ≡ record self.old { dry_run = (D.tale dial.new).dry_run } }
        ensures house { D.house_tale dial.new ≡ D.house_tale dial.old }
    {
        match dial.dial(self.url(client)) {
            Err(Fault::Failed) => {
                self.dry_run += 1;
                Err(Fault::Failed)
            }
            answer => answer,
        }
    }

    /// The dial takes a link back.
    pub fn hang_up<D: Dial>(&mut self, dial: &mut D, wire: Wire<D::Wire>)
    where
        D::Wire: Drop,
        requires same { self.old.dry_run ≡ (D.tale dial.old).dry_run }
        requires wet { self.old.dry_run < 9 }
        ensures back { HangsUp (D.tale dial.old) (D.tale dial.new) wire.tale wire.faults }
        ensures route { self.new ≡ record self.old { dry_run = (D.tale dial.new).dry_run } }
        ensures house { D.house_tale dial.new ≡ D.house_tale dial.old }
    {
        self.dry_run = wire.dry_after(self.dry_run);
        wire.give_back(dial);
    }

    /// Whether the dial has failed too often.
    pub fn is_dry(&self) -> bool
        ensures { result ≡ nat_le 9 self.now.dry_run }
    {
        self.dry_run >= MOST_FAILURES
    }

    /// Follows from how a connection ended: where the client connects next, or how it ends.
    pub fn follow(
        &mut self,
        ended: Result<Ending, DriveFault>,
    ) -> Result<Option<Driven>, DriveFault>
        ensures answer { result ≡ answer_by self.old.dry_run ended }
        ensures heads { Heads self.old self.new ended result }
    {
        if let Err(DriveFault::Memory) = ended {
            return Err(DriveFault::Memory);
        }
        if self.is_dry() {
            return Err(DriveFault::Dials);
        }
        match ended {
            Ok(Ending::Left(target)) => {
                self.target = target;
                Ok(None)
            }
            Ok(Ending::Dropped(target)) => {
                self.target = target;
                Ok(None)
            }
            Ok(Ending::Finished) => Ok(Some(Driven::Finished)),
            Ok(Ending::Stopped) => Ok(Some(Driven::Stopped)),
            Err(fault) => Err(fault),
        }
    }
}
