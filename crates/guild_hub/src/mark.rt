//! The mark by which a hub's writer tells that it has quit. It is a word that is stored once.

ghost use Rattle.std.specs.Prelude.{◌≡◌, [], true, IfOk};
ghost use Rattle.std.specs.Arc.{arc_value};
ghost use mathlib.Core.List.{IsPrefix};
ghost use Rattle.guild_hub.specs.Books.{counter_of};
ghost use Rattle.guild_hub.specs.Marks.{has_store, EndsWithLoad};
ghost use Rattle.guild_hub.specs.Sights.{watching};

use crate::mark_step::MarkStep;
use logbook::{Gain, Offer, Plain, Play, Rule, Seen, Start, Word};
use std::alloc::{AllocError, Global};
use std::marker::Model;
use std::sync::Arc;

/// The rule of a mark: the word is 0 before the writer has quit.
pub struct Quitting;

impl Rule<MarkStep, u64> for Quitting {
    ghost use Rattle.std.specs.Prelude.{[]};
    ghost use base.Fml.{ftrue};
    ghost use Rattle.guild_hub.specs.Marks.{IsMark};

    ghost holds = { IsMark };

    ghost first = { [] };

    ghost hinted = { λ n log. Unit {0} };

    ghost shows = { λ log. [] };

    ghost keeps = { λ names log. ftrue };

    ghost moves = { λ ask before after answer. Unit {0} };
}

/// What a client of a mark has after a step: nothing.
pub struct NoGain;

impl Gain<MarkStep, u64> for NoGain {
    ghost use base.Fml.{ftrue};

    ghost after = { λ names about answer. ftrue };
}

/// A step that asks for nothing but that it is kept.
struct Asking;

impl Plain<(), MarkStep, u64> for Asking {
    ghost use Rattle.std.specs.Prelude.{None};
    ghost use Rattle.guild_hub.specs.declared.mark_step.MarkStep.TheVariants.{Load};

    ghost ask = { λ nothing. Load };

    ghost state = { λ nothing. None };
}

/// The step that stores the mark.
pub struct Storing;

impl Play<MarkStep, u64> for Storing {
    ghost use Rattle.guild_hub.specs.Marks.{Stores};

    ghost then = { Stores };
}

/// The step that loads the mark.
pub struct Loading;

impl Play<MarkStep, u64> for Loading {
    ghost use Rattle.guild_hub.specs.Marks.{Loads};

    ghost then = { Loads };
}

type MarkSeen = Seen<MarkStep, u64, Quitting>;

type MarkWord = Word<MarkStep, u64, Quitting>;

type MarkOffer = Offer<MarkStep, u64, Quitting, NoGain>;

/// The writer's end of a mark.
#[derive(Drop)]
pub struct Mark {
    word: Arc<MarkWord>,
    seen: MarkSeen,
    ghost word_is: { arc_value word ≡ counter_of seen.book },
    ghost unset: { seen.log ≡ [] },
}

impl Mark {
    /// A mark that is not stored.
    pub fn new(alloc: Global) -> Result<Mark, AllocError> {
        let (seen, mut first, _second) = Seen::open(Start::alone(), 0, 0);
        let word = Word::tracked(0, &mut first);
        Ok(Mark {
            word: Arc::new(alloc, word)?,
            seen,
        })
    }

    /// A reader's end, which has not loaded the mark.
    pub fn watch(&self) -> Result<Watch, AllocError>
        ensures { IfOk result (λ w. w ≡ watching self.now.seen.book []) }
    {
        Ok(Watch {
            word: Arc::try_clone(&self.word)?,
            seen: self.seen.again(),
        })
    }

    /// Stores the mark. It does not allocate.
    pub fn store(&self) -> QuitNote
        ensures { result ≡ self.now.seen.book }
    {
        let mut seen = self.seen.again();
        let mut offer: MarkOffer = seen.plain::<NoGain, (), Asking>(&());
        let mut pen = seen.no_pen();
        let word: &MarkWord = &self.word;
        word.compare_exchange::<Storing, NoGain>(0, 1, &mut seen, &mut offer, &mut pen);
        QuitNote { seen }
    }
}

/// That the writer of a hub has quit. It takes no room. A clause sees which mark the writer stored.
#[derive(Drop)]
pub struct QuitNote {
    seen: MarkSeen,
}

impl Model for QuitNote {
    ghost use Rattle.std.specs.Prelude.{◌≡◌, true};
    ghost use Rattle.logbook.specs.Pages.{Book};
    ghost use Rattle.guild_hub.specs.Marks.{has_store};

    ghost Value = { Book };

    ghost view = { λ n. n.seen.book };

    ghost invariant = { λ n. has_store n.seen.log ≡ true };
}

/// A reader's end of a mark. A clause sees which mark it is, and the steps on it that the reader knows.
#[derive(Drop)]
pub struct Watch {
    word: Arc<MarkWord>,
    seen: MarkSeen,
}

impl Model for Watch {
    ghost use Rattle.std.specs.Prelude.{◌≡◌};
    ghost use Rattle.std.specs.Arc.{arc_value};
    ghost use Rattle.guild_hub.specs.Books.{counter_of};
    ghost use Rattle.guild_hub.specs.Sights.{Watching, watching};

    ghost Value = { Watching };

    ghost view = { λ w. watching w.seen.book w.seen.log };

    ghost invariant = { λ w. arc_value w.word ≡ counter_of w.seen.book };
}

impl Watch {
    /// Takes in that the writer has quit. It does not allocate.
    pub fn learn(&mut self, note: &QuitNote)
        requires { note.now ≡ self.old.mark }
        ensures mark { self.new.mark ≡ self.old.mark }
        ensures steps { IsPrefix self.old.steps self.new.steps }
        ensures quit { has_store self.new.steps ≡ true }
    {
        self.seen.learn(&note.seen);
    }

    /// Loads the mark, and tells whether the writer had stored it. It waits for nobody, and does not
    /// allocate.
    pub fn look(&mut self) -> bool
        ensures mark { self.new.mark ≡ self.old.mark }
        ensures load { EndsWithLoad self.old.steps self.new.steps }
        ensures found { result ≡ has_store self.new.steps }
    {
        let mut offer: MarkOffer = self.seen.plain::<NoGain, (), Asking>(&());
        let word: &MarkWord = &self.word;
        let found = word.load::<Loading, NoGain>(&mut self.seen, &mut offer);
        found != 0
    }
}
