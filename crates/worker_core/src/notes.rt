//! What is noted before an entry: once for all viewers of one user in one shard.

ghost use Rattle.std.specs.Prelude.{◌≡◌, ◌<◌, length, map, option_map, slice_get, take, IfOk, IfSome, OnOk};
ghost use Rattle.std.specs.Option.{option_copied};
ghost use Rattle.edit_events.specs.Was.{was_of};
ghost use Rattle.worker_core.specs.Recipients.{Picks, IsLonger, IsOfAlike, picked_by};

use crate::recipients::{Recipients, are_served_alike};
use dispatch_types::Viewer;
use edit_apply::Edit;
use edit_events::Was;
use guild_replica::Replica;
use std::alloc::{AllocError, Global};

/// What has to be known of the record before an entry, for viewers: each note once, and for each viewer, by its
/// index, the index of its note.
pub struct Notes {
    /// The notes, each once.
    pub noted: Vec<Was>,
    /// For each viewer, by its index, the index of its note.
    pub whose: Vec<usize>,
}

impl Drop for Notes {
    fn drop(self) {
        let Notes { noted, whose } = self;
        drop(noted);
        drop(whose);
    }
}

impl Notes {
    /// No note. Does not allocate.
    pub fn none(alloc: Global) -> Notes {
        Notes {
            noted: Vec::new(alloc),
            whose: Vec::new(alloc),
        }
    }

    // The index of the note of an earlier viewer that is served alike.
    fn index_of_alike(
        &self,
        recipients: &Recipients,
        index: usize,
        viewer: &Viewer,
    ) -> Option<usize>
        ensures { IfSome result (IsOfAlike recipients.now.viewers.items self.now.whose.items viewer.now) }
    {
        let first = recipients.first_alike(index);
        let at = self.whose.get(first)?;
        let known = recipients.viewers.get(first)?;
        if are_served_alike(known, viewer) {
            Some(*at)
        } else {
            None
        }
    }

    // The index of the note for the viewer at an index, which is added where no earlier viewer has it.
    fn index_for(
        &mut self,
        alloc: Global,
        replica: &Replica,
        entry: &Edit,
        recipients: &Recipients,
        index: usize,
    ) -> Result<usize, AllocError>
        requires { index < length recipients.now.viewers.items }
        ensures found { IfOk result (λ at. Picks self.old.noted.items self.old.whose.items (map (λ v. was_of replica.now.guild v entry.now) (take index recipients.now.viewers.items))
            → slice_get self.new.noted.items at ≡ option_map (λ v. was_of replica.now.guild v entry.now) (slice_get recipients.now.viewers.items index)) }
        ensures longer { OnOk result (IsLonger self.old.noted.items self.new.noted.items) }
        ensures whose { self.new.whose.items ≡ self.old.whose.items }
    {
        let viewer = &recipients.viewers[index];
        if let Some(at) = self.index_of_alike(recipients, index, viewer) {
            return Ok(at);
        }
        let at = self.noted.len();
        let note = replica.note(alloc, entry, viewer, recipients.user_of(index))?;
        self.noted.push(note)?;
        Ok(at)
    }

    /// Makes these what has to be known of the record before an entry. The lists keep their memory.
    pub fn update(
        &mut self,
        alloc: Global,
        replica: &Replica,
        entry: &Edit,
        recipients: &Recipients,
    ) -> Result<(), AllocError>
        ensures { OnOk result (Picks self.new.noted.items self.new.whose.items (map (λ v. was_of replica.now.guild v entry.now) recipients.now.viewers.items)) }
    {
        let count = recipients.viewers.len();
        self.noted.clear();
        self.whose.clear();
        // Most users have one shard, so one note; for more the list grows.
        self.noted.reserve(recipients.users.len())?;
        self.whose.reserve(count)?;
        for index in 0..count {
            let at = self.index_for(alloc, replica, entry, recipients, index)?;
            self.whose.push(at)?;
        }
        Ok(())
    }

    /// The note for the viewer at an index.
    pub fn at(&self, viewer: usize) -> Option<&Was>
        ensures { option_copied result ≡ picked_by self.now.noted.items (slice_get self.now.whose.items viewer) }
    {
        let at = self.whose.get(viewer)?;
        self.noted.get(*at)
    }
}
