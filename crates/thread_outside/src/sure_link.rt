//! A link in memory that never fails.
ghost use Rattle.std.specs.Prelude.{◌≡◌, [], Some, None, IfOk, IsOkUnless};
ghost use Rattle.gate_outside.specs.Causes.{FaultHasCause};
ghost use Rattle.gate_outside.specs.Links.{Receives, Sends, Closes};
ghost use Rattle.gate_outside.specs.declared.faults.Fault.TheVariants as fault;
ghost use Rattle.gate_outside.specs.declared.sending.Sending.TheVariants as sending;
ghost use Rattle.thread_outside.specs.MemLinks.{new_link, tale_of, Gives, PutsOut};

use crate::mem_link::MemLink;
use crate::script::Script;
use crate::unused::Unused;
use gate_outside::faults::Fault;
use gate_outside::incoming::Incoming;
use gate_outside::links::Link;
use gate_outside::sending::Sending;
use std::alloc::{AllocError, Global};
use std::marker::Model;

/// A link in memory to a script, which never fails. It tells what it gave and what it was sent.
#[derive(Drop)]
pub struct SureLink {
    link: MemLink<Script>,
}

impl Model for SureLink {
    ghost use Rattle.std.specs.Prelude.{◌≡◌, [], true, is_some};
    ghost use Rattle.thread_outside.specs.MemLinks.{LinkState};

    ghost Value = { LinkState };

    ghost view = { λ l. l.link };

    ghost invariant = { λ l. (l.link.plan.failing ≡ []) × (is_some l.link.turns ≡ true) };
}

impl SureLink {
    /// A link to that script.
    pub fn new(alloc: Global, script: Unused<Script>) -> Result<SureLink, AllocError>
        ensures { IfOk result (λ l. l ≡ new_link (Some script.turns) None []) }
    {
        let link = MemLink::new(alloc, script, Vec::new(alloc))?;
        Ok(SureLink { link })
    }

    /// What came and was given, in order.
    pub fn gave(&self) -> &[Sending]
        ensures { result.now ≡ self.now.gave }
    {
        self.link.gave()
    }

    /// What went out, in order.
    pub fn sent(&self) -> &[Sending]
        ensures { result.now ≡ self.now.sent }
    {
        self.link.sent()
    }
}

impl Link for SureLink {
    ghost tale = { tale_of };

    ghost faults = { λ _. 0 };

    fn recv(&mut self) -> Result<Incoming, Fault>
        ensures tale { Receives (tale_of self.old) (tale_of self.new) result }
        ensures cause { FaultHasCause 0 0 result }
        ensures exact { Gives self.old self.new result }
        ensures memory { IsOkUnless result fault.Memory }
    {
        self.link.recv()
    }

    fn send(&mut self, text: &str) -> Result<(), Fault>
        ensures tale { Sends (tale_of self.old) (tale_of self.new) text.now result }
        ensures cause { FaultHasCause 0 0 result }
        ensures exact { PutsOut self.old self.new (sending.Text text.now) None result }
        ensures memory { IsOkUnless result fault.Memory }
    {
        self.link.send(text)
    }

    fn close(&mut self, code: u16) -> Result<(), Fault>
        ensures tale { Closes (tale_of self.old) (tale_of self.new) code result }
        ensures cause { FaultHasCause 0 0 result }
        ensures exact { PutsOut self.old self.new (sending.Close code) (Some code) result }
        ensures memory { IsOkUnless result fault.Memory }
    {
        self.link.close(code)
    }
}
