//! The writer's end of a hub's history.

ghost use Rattle.std.specs.Prelude.{◌≡◌, ◌<◌, ◌^◌, ◌++◌, ◌∷◌, [], true, false, length, IfSome, MatchBool};
ghost use Rattle.guild_hub.specs.Books.{counter_of};
ghost use Rattle.guild_hub.specs.Items.{IsFinal};
ghost use Rattle.guild_hub.specs.Logs.{with_entry, with_seal};

use crate::item::Item;
use crate::note::{History, Note};
use edit_apply::Edit;
use logbook::{Gain, Offer, Plain, Play, Seen, Start, Word};
use snowflake_id::Snowflake;
use std::marker::Model;

/// What a client of the history has after a step: nothing.
pub struct Nothing;

impl Gain<Item, u64> for Nothing {
    ghost use base.Fml.{ftrue};

    ghost after = { λ names about answer. ftrue };
}

/// The step that adds an item.
pub struct Adding;

impl Play<Item, u64> for Adding {
    ghost use Rattle.guild_hub.specs.Books.{Adds};
    ghost use Rattle.guild_hub.specs.Items.{IsFinal};

    ghost then = { λ s v found w. Adds IsFinal s v found w };
}

/// Adds an entry.
struct OfEntry;

impl Plain<Edit, Item, u64> for OfEntry {
    ghost use Rattle.std.specs.Prelude.{None};
    ghost use Rattle.guild_hub.specs.declared.item.Item.TheVariants.{Entry};

    ghost ask = { λ edit. Entry edit };

    ghost state = { λ edit. None };
}

/// Adds the seal.
struct OfSeal;

impl Plain<(), Item, u64> for OfSeal {
    ghost use Rattle.std.specs.Prelude.{None};
    ghost use Rattle.guild_hub.specs.declared.item.Item.TheVariants.{Seal};

    ghost ask = { λ nothing. Seal };

    ghost state = { λ nothing. None };
}

/// The one end of a history at which it grows, and the note of all of it.
#[derive(Drop)]
pub struct Head {
    word: Word<Item, u64, History>,
    pub note: Note,
    ghost counts: { word ≡ counter_of note.hub.book },
}

// The history with one item more, if it has just so many.
fn advance<X, M: Plain<X, Item, u64>>(
    word: &Word<Item, u64, History>,
    seen: &Seen<Item, u64, History>,
    count: u64,
    about: &X,
) -> Option<Seen<Item, u64, History>>
    requires word { word.now ≡ counter_of seen.now.book }
    requires count { (count ≡ length seen.now.log) × (count < 2 ^ 60) }
    requires legal { IsFinal (seen.now.log ++ M.ask about.now ∷ []) }
    ensures { IfSome result (λ s. (s.book ≡ seen.now.book) × (s.log ≡ seen.now.log ++ M.ask about.now ∷ []) × IsFinal s.log) }
{
    let mut seen = seen.again();
    let mut offer: Offer<Item, u64, History, Nothing> = seen.plain::<Nothing, X, M>(about);
    let mut pen = seen.no_pen();
    let found = word.compare_exchange::<Adding, Nothing>(
        count,
        count + 1,
        &mut seen,
        &mut offer,
        &mut pen,
    );
    if found == count { Some(seen) } else { None }
}

impl Head {
    /// The history of an empty log.
    pub fn open(guild: Snowflake) -> Head
        ensures { (result.note.hub.guild ≡ guild) × (result.note.entries ≡ []) × (result.note.sealed ≡ false) }
    {
        let (seen, mut first, _second) = Seen::open(Start::alone(), 0, 0);
        Head {
            word: Word::tracked(0, &mut first),
            note: Note {
                seen,
                guild,
                len: 0,
                sealed: false,
            },
        }
    }

    /// Adds an entry. It answers false, and adds nothing, only if another end has added an item.
    pub fn add(&mut self, edit: &Edit) -> bool
        requires { (self.old.note.sealed ≡ false) × (length self.old.note.entries < 2 ^ 53) }
        ensures { MatchBool result (self.new.note ≡ with_entry self.old.note edit.now) (self.new.note ≡ self.old.note) }
    {
        let Note {
            seen,
            guild,
            len,
            ..
        } = &self.note;
        let Some(seen) = advance::<Edit, OfEntry>(&self.word, seen, *len, edit) else {
            return false;
        };
        self.note = Note {
            seen,
            guild: *guild,
            len: *len + 1,
            sealed: false,
        };
        true
    }

    /// Adds the seal. It answers false, and adds nothing, only if another end has added an item.
    pub fn seal(&mut self) -> bool
        requires { (self.old.note.sealed ≡ false) × (length self.old.note.entries < 2 ^ 60) }
        ensures { MatchBool result (self.new.note ≡ with_seal self.old.note) (self.new.note ≡ self.old.note) }
    {
        let Note {
            seen,
            guild,
            len,
            ..
        } = &self.note;
        let Some(seen) = advance::<(), OfSeal>(&self.word, seen, *len, &()) else {
            return false;
        };
        self.note = Note {
            seen,
            guild: *guild,
            len: *len,
            sealed: true,
        };
        true
    }
}
