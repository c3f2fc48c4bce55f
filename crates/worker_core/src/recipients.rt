//! The viewers of sessions: sessions of one viewer are due the same.

ghost use Rattle.std.specs.Prelude.{◌≡◌, ◌↔◌, [], Some, true, map, slice_get, IfOk, OnOk, IsTrue};
ghost use Rattle.std.specs.Option.{option_copied};
ghost use Rattle.worker_core.specs.Masks.{has_users};
ghost use Rattle.worker_core.specs.Recipients.{AreKnown, AreServedAlike, Picks, IsLonger, picked_by, viewer_of};

use dispatch_types::Viewer;
use session_core::Sessions;
use snowflake_id::Snowflake;
use std::alloc::{AllocError, Global};

/// The viewers of sessions, each once, and for each session, by its index, the index of its viewer.
pub struct Recipients {
    /// The viewers, each once.
    pub viewers: Vec<Viewer>,
    /// For each session, by its index, the index of its viewer.
    pub whose: Vec<usize>,
    /// The users of the viewers, each once.
    pub users: Vec<Snowflake>,
    /// For each viewer, by its index, the index of its user.
    users_of: Vec<usize>,
    /// For each viewer, by its index, the index of the first that is served alike.
    firsts: Vec<usize>,
    /// The users are those of the viewers.
    pub ghost complete: { has_users users.items viewers.items ≡ true },
}

impl Drop for Recipients {
    fn drop(self) {
        let Recipients {
            viewers,
            whose,
            users,
            users_of,
            firsts,
        } = self;
        drop(viewers);
        drop(whose);
        drop(users);
        drop(users_of);
        drop(firsts);
    }
}

// The index of a viewer in a list, to which it is added if it is not in it.
fn index_of(viewers: &mut Vec<Viewer>, viewer: &Viewer) -> Result<usize, AllocError>
    ensures found { IfOk result (λ index. slice_get viewers.new.items index ≡ Some viewer.now) }
    ensures longer { OnOk result (IsLonger viewers.old.items viewers.new.items) }
{
    if let Some(index) = viewers.iter().position(|one| one == viewer) {
        return Ok(index);
    }
    let index = viewers.len();
    viewers.push(*viewer)?;
    Ok(index)
}

// The index of a user in a list, to which it is added if it is not in it.
fn index_of_user(users: &mut Vec<Snowflake>, user: Snowflake) -> Result<usize, AllocError>
    ensures found { IfOk result (λ index. slice_get users.new.items index ≡ Some user) }
    ensures longer { OnOk result (IsLonger users.old.items users.new.items) }
{
    if let Some(index) = users.iter().position(|one| *one == user) {
        return Ok(index);
    }
    let index = users.len();
    users.push(user)?;
    Ok(index)
}

/// Whether two viewers are of one user in one shard, so that both are served or neither is (Gateway, Sharding).
pub fn are_served_alike(one: &Viewer, other: &Viewer) -> bool
    ensures { IsTrue result ↔ AreServedAlike one.now other.now }
{
    one.user == other.user && one.shard == other.shard
}

// For each viewer the index of the first that is served alike.
fn firsts_alike(alloc: Global, viewers: &[Viewer]) -> Result<Vec<usize>, AllocError> {
    let mut firsts = Vec::with_capacity(alloc, viewers.len())?;
    for viewer in viewers {
        let first = viewers.iter().position(|one| are_served_alike(one, viewer));
        firsts.push(first.unwrap_or(0))?;
    }
    Ok(firsts)
}

// The viewers of these sessions, each once, and for each session the index of its viewer.
fn viewers_of(alloc: Global, sessions: &Sessions) -> Result<(Vec<Viewer>, Vec<usize>), AllocError>
    ensures { IfOk result (λ lists. Picks lists.0.items lists.1.items (map viewer_of sessions.now.sessions)) }
{
    let mut viewers = Vec::new(alloc);
    let mut whose = Vec::with_capacity(alloc, sessions.len())?;
    for index in 0..sessions.len() {
        let Some(viewer) = sessions.viewer_at(index) else {
            return Ok((viewers, whose));
        };
        whose.push(index_of(&mut viewers, viewer)?)?;
    }
    Ok((viewers, whose))
}

impl Recipients {
    /// Those of no session. Does not allocate.
    pub fn none(alloc: Global) -> Recipients
        ensures viewers { result.viewers.items ≡ [] }
        ensures whose { result.whose.items ≡ [] }
    {
        Recipients {
            viewers: Vec::new(alloc),
            whose: Vec::new(alloc),
            users: Vec::new(alloc),
            users_of: Vec::new(alloc),
            firsts: Vec::new(alloc),
        }
    }

    /// The viewer of the session at an index.
    fn viewer_at(&self, index: usize) -> Option<&Viewer>
        ensures { option_copied result ≡ picked_by self.now.viewers.items (slice_get self.now.whose.items index) }
    {
        let at = self.whose.get(index)?;
        self.viewers.get(*at)
    }

    /// Whether these are, session by session, the viewers of these sessions.
    fn are_of(&self, sessions: &Sessions) -> bool
        ensures { IsTrue result → Picks self.now.viewers.items self.now.whose.items (map viewer_of sessions.now.sessions) }
    {
        if self.whose.len() != sessions.len() {
            return false;
        }
        for index in 0..sessions.len() {
            let (Some(known), Some(viewer)) = (self.viewer_at(index), sessions.viewer_at(index))
            else {
                return false;
            };
            if known != viewer {
                return false;
            }
        }
        true
    }

    /// Makes these the viewers of these sessions. If they are not known to be, they are compared, and most
    /// often they are.
    pub fn update(
        &mut self,
        known: bool,
        alloc: Global,
        sessions: &Sessions,
    ) -> Result<(), AllocError>
        requires { AreKnown known self.old.viewers.items self.old.whose.items sessions.now.sessions }
        ensures { OnOk result (Picks self.new.viewers.items self.new.whose.items (map viewer_of sessions.now.sessions)) }
    {
        if !known && !self.are_of(sessions) {
            *self = Recipients::of(alloc, sessions)?;
        }
        Ok(())
    }

    /// The index of the user of the viewer at an index.
    pub fn user_of(&self, viewer: usize) -> usize {
        self.users_of.get(viewer).copied().unwrap_or(0)
    }

    /// The index of the first viewer that is served alike the viewer at an index.
    pub fn first_alike(&self, viewer: usize) -> usize {
        self.firsts.get(viewer).copied().unwrap_or(0)
    }

    /// The viewers of these sessions, and their users.
    fn of(alloc: Global, sessions: &Sessions) -> Result<Recipients, AllocError>
        ensures { IfOk result (λ recipients. Picks recipients.viewers.items recipients.whose.items (map viewer_of sessions.now.sessions)) }
    {
        let (viewers, whose) = viewers_of(alloc, sessions)?;
        let mut users = Vec::new(alloc);
        let mut users_of = Vec::with_capacity(alloc, viewers.len())?;
        for viewer in viewers.as_slice() {
            users_of.push(index_of_user(&mut users, viewer.user)?)?;
        }
        let firsts = firsts_alike(alloc, viewers.as_slice())?;
        Ok(Recipients {
            viewers,
            whose,
            users,
            users_of,
            firsts,
        })
    }
}
