//! What sessions are sent for one entry: sessions that are sent the same share one text.

ghost use Rattle.std.specs.Prelude.{◌≡◌, ◌<◌, ◌↔◌, Some, List, true, length, map, slice_get, IsTrue, IfOk, OnOk, MatchResult};
ghost use Rattle.guild_model.specs.Record.{Record};
ghost use Rattle.dispatch_types.specs.declared.dispatch.Dispatch.{Dispatch};
ghost use Rattle.edit_apply.specs.Edits.{accepts, applied};
ghost use Rattle.edit_events.specs.Due.{due};
ghost use Rattle.edit_events.specs.Was.{was_of};
ghost use Rattle.worker_core.specs.Recipients.{Picks, IsLonger, picked_by};
ghost use Rattle.worker_core.specs.Forms.{AreDue};
ghost use Rattle.worker_core.specs.Telling.{TellsAt, FailsAt};

use crate::form_index::FormIndex;
use crate::io::{Output, StepFault};
use crate::notes::Notes;
use crate::recipients::Recipients;
use crate::tell::{envelopes_of, tell_written};
use dispatch_equality::same_list;
use dispatch_types::{Dispatch, Viewer};
use edit_apply::Edit;
use edit_events::Was;
use guild_replica::Replica;
use payload_text::Envelope;
use session_core::Sessions;
use std::alloc::{AllocError, Global};
use std::marker::Model;

/// Dispatches, and the text of each without its number.
pub struct SharedDispatches {
    dispatches: Vec<Dispatch>,
    envelopes: Vec<Envelope>,
}

impl Drop for SharedDispatches {
    fn drop(self) {
        let SharedDispatches {
            dispatches,
            envelopes,
        } = self;
        drop(dispatches);
        drop(envelopes);
    }
}

impl Model for SharedDispatches {
    ghost use Rattle.std.specs.Prelude.{◌≡◌, List, map};
    ghost use Rattle.dispatch_types.specs.declared.dispatch.Dispatch.{Dispatch};
    ghost use Rattle.event_json.specs.Text.{envelope_of};

    ghost Value = { List Dispatch };

    ghost view = { λ t. t.dispatches.items };

    ghost invariant = { λ t. t.envelopes.items ≡ map envelope_of t.dispatches.items };
}

impl SharedDispatches {
    /// These dispatches.
    pub fn of(alloc: Global, dispatches: Vec<Dispatch>) -> Result<SharedDispatches, AllocError>
        ensures { IfOk result (λ told. told ≡ dispatches.items) }
    {
        let envelopes = envelopes_of(alloc, dispatches.as_slice())?;
        Ok(SharedDispatches {
            dispatches,
            envelopes,
        })
    }

    /// Whether these are the dispatches.
    pub fn is(&self, dispatches: &[Dispatch]) -> bool
        ensures { IsTrue result ↔ (self.now ≡ dispatches.now) }
    {
        same_list(self.dispatches.as_slice(), dispatches)
    }

    /// Sends the dispatches to the session at an index.
    pub fn tell(
        &self,
        sessions: &mut Sessions,
        index: usize,
        out: &mut Vec<Output>,
    ) -> Result<(), StepFault>
        requires { index < length sessions.old.sessions }
        ensures told { MatchResult result (λ _. TellsAt index (λ x. self.now) sessions.old sessions.new out.old.items out.new.items) (FailsAt index (λ x. self.now) sessions.old) }
        ensures as_many { OnOk result (length sessions.new.sessions ≡ length sessions.old.sessions) }
    {
        let dispatches = self.dispatches.as_slice();
        tell_written(sessions, index, dispatches, self.envelopes.as_slice(), out)
    }
}

// The index of dispatches in a list, to which they are added if they are not in it.
fn index_of(
    alloc: Global,
    told: &mut Vec<SharedDispatches>,
    dispatches: Vec<Dispatch>,
) -> Result<usize, AllocError>
    ensures found { IfOk result (λ index. slice_get told.new.items index ≡ Some dispatches.items) }
    ensures longer { OnOk result (IsLonger told.old.items told.new.items) }
{
    let found = told.iter().position(|one| one.is(dispatches.as_slice()));
    if let Some(index) = found {
        return Ok(index);
    }
    let index = told.len();
    told.push(SharedDispatches::of(alloc, dispatches)?)?;
    Ok(index)
}

/// What an entry owes to viewers: lists of dispatches, each once, and for each viewer, by its index, the
/// index of its list.
pub struct DueDispatches {
    /// The lists, each once.
    pub told: Vec<SharedDispatches>,
    /// For each viewer, by its index, the index of its list.
    pub whose: Vec<usize>,
    /// For each form of an edit of messages, the index of its list.
    forms: FormIndex,
}

impl Drop for DueDispatches {
    fn drop(self) {
        let DueDispatches {
            told,
            whose,
            forms: _,
        } = self;
        drop(told);
        drop(whose);
    }
}

impl DueDispatches {
    /// Nothing. Does not allocate.
    pub fn none(alloc: Global) -> DueDispatches {
        DueDispatches {
            told: Vec::new(alloc),
            whose: Vec::new(alloc),
            forms: FormIndex::new(),
        }
    }

    // The index of what an accepted entry owes to a viewer, whose user has an index too. A viewer in a form
    // seen before reuses that form's list.
    fn index_for(
        &mut self,
        alloc: Global,
        replica: &Replica,
        entry: &Edit,
        was: &Was,
        viewer: &Viewer,
        user: usize,
    ) -> Result<usize, AllocError>
        ensures due { IfOk result (λ index. (s : Record) → was.now ≡ was_of s viewer.now entry.now → replica.now.guild ≡ applied s entry.now → accepts s entry.now ≡ true
            → AreDue s entry.now self.old.told.items self.old.forms
            → (slice_get self.new.told.items index ≡ Some (due s entry.now viewer.now)) × AreDue s entry.now self.new.told.items self.new.forms) }
        ensures longer { OnOk result (IsLonger self.old.told.items self.new.told.items) }
        ensures whose { self.new.whose.items ≡ self.old.whose.items }
    {
        let form = replica.form_for(entry, was, viewer, user);
        if let Some(index) = self.forms.index(form) {
            return Ok(index);
        }
        let due = replica.events(alloc, entry, was, viewer, user)?;
        let index = index_of(alloc, &mut self.told, due)?;
        self.forms.keep(form, index);
        Ok(index)
    }

    /// Makes these what an accepted entry owes to each of the viewers, by the record after it and the notes
    /// of that before it. The lists keep their memory.
    pub fn update(
        &mut self,
        alloc: Global,
        replica: &Replica,
        entry: &Edit,
        notes: &Notes,
        recipients: &Recipients,
    ) -> Result<(), AllocError>
        ensures { OnOk result ((s : Record) → Picks notes.now.noted.items notes.now.whose.items (map (λ v. was_of s v entry.now) recipients.now.viewers.items) → replica.now.guild ≡ applied s entry.now → accepts s entry.now ≡ true
            → Picks self.new.told.items self.new.whose.items (map (due s entry.now) recipients.now.viewers.items)) }
    {
        let viewers = recipients.viewers.as_slice();
        self.told.clear();
        self.whose.clear();
        self.forms = FormIndex::new();
        self.whose.reserve(viewers.len())?;
        for index in 0..viewers.len() {
            let Some(was) = notes.at(index) else {
                // Each viewer has a note.
                return Ok(());
            };
            let viewer = &viewers[index];
            let user = recipients.user_of(index);
            let due = self.index_for(alloc, replica, entry, was, viewer, user)?;
            self.whose.push(due)?;
        }
        Ok(())
    }

    /// Sends the session at an index what is due to the viewer at another.
    pub fn tell(
        &self,
        viewer: usize,
        sessions: &mut Sessions,
        index: usize,
        out: &mut Vec<Output>,
    ) -> Result<(), StepFault>
        requires { index < length sessions.old.sessions }
        ensures as_many { OnOk result (length sessions.new.sessions ≡ length sessions.old.sessions) }
        ensures told { (ds : List Dispatch) → picked_by self.now.told.items (slice_get self.now.whose.items viewer) ≡ Some ds
            → MatchResult result (λ _. TellsAt index (λ x. ds) sessions.old sessions.new out.old.items out.new.items) (FailsAt index (λ x. ds) sessions.old) }
    {
        let Some(at) = self.whose.get(viewer) else {
            return Ok(());
        };
        match self.told.get(*at) {
            Some(told) => told.tell(sessions, index, out),
            None => Ok(()),
        }
    }
}
