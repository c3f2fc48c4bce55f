//! One run.

use crate::counts::Counts;
use crate::draws::Draws;
use crate::script;
use crate::two_ends::TwoEnds;
use edit_apply::Edit;
use intent_set::Intents;
use snowflake_id::Snowflake;
use std::alloc::Global;
use std::sync::Wait;

/// What clients ask for: guilds; and members; and voice states, presences and messages; and the content of
/// messages.
const INTENTS: [u64; 4] = [1, 3, 899, 33_667];

/// More turns than are needed to give both ends what is on its way.
const ENOUGH: u32 = 1_000_000;

/// How a run goes.
#[derive(Clone, Copy)]
struct Pace {
    /// How many edits it has at most.
    edits: u32,
    /// The milliseconds that pass at a time are fewer.
    millis: u32,
    /// How long the client stays away is less, in times that it might dial.
    away: u32,
}

// One run of a hundred has a whole script, in which little time passes, so that a session may have more
// dispatches than are kept for a resume while its client is away.
fn drawn_pace(seed: u64, draws: &mut Draws) -> Pace {
    if seed % 100 == 0 {
        return Pace {
            edits: 2_002,
            millis: 400,
            away: 1_000,
        };
    }
    Pace {
        edits: draws.below(161).saturating_add(40),
        millis: 40_000,
        away: 80,
    }
}

/// A run, which goes by what is drawn.
#[derive(Drop)]
struct Run<R: Wait + Copy + Drop> {
    ends: TwoEnds<R>,
    draws: Draws,
    pace: Pace,
    /// How often the client might dial and does not.
    away: u32,
}

impl<R: Wait + Copy + Drop> Run<R> {
    // The worker is told of the end of a connection: that it was lost, or a code. After the code 1000 the
    // session has ended.
    fn tell(&mut self) -> anyhow::Result<()> {
        let code = match self.draws.below(6) {
            0 => Some(1000),
            1 => Some(4000),
            _ => None,
        };
        self.ends.tell(code)
    }

    // Most often the client stays away for a short time.
    fn draw_away(&mut self) {
        let away = match self.draws.below(6) {
            0 => self.pace.away,
            _ => 3,
        };
        self.away = self.draws.below(away);
    }

    // The client learns that its connection was cut, or dials, or stays away.
    fn connect(&mut self, rt: R) -> anyhow::Result<()> {
        if self.ends.learn()? {
            self.draw_away();
        }
        if self.ends.is_connected {
            return Ok(());
        }
        if self.away == 0 {
            return self.ends.dial(rt);
        }
        self.away = self.away.saturating_sub(1);
        Ok(())
    }

    fn look(&mut self) -> anyhow::Result<()> {
        let index = self.draws.below(2);
        self.ends.look(index as usize)
    }

    fn tick(&mut self) -> anyhow::Result<()> {
        let millis = self.draws.below(self.pace.millis);
        self.ends.tick(millis)
    }

    fn give(&mut self) -> anyhow::Result<()> {
        if self.draws.below(5) < 2 {
            self.ends.give_worker()?;
        } else {
            self.ends.give_client()?;
        }
        Ok(())
    }

    // Something happens.
    fn step(&mut self, rt: R) -> anyhow::Result<()> {
        match self.draws.below(32) {
            0..=5 => self.look(),
            6..=19 => self.give(),
            20..=21 => self.tick(),
            22 => self.ends.beat(),
            23 => self.tell(),
            24..=25 => self.ends.cut(&mut self.draws),
            _ => self.connect(rt),
        }
    }

    // An edit, and what happens after it.
    fn edit(&mut self, rt: R, guild: Snowflake, edit: Edit) -> anyhow::Result<()> {
        self.ends.edit(guild, edit)?;
        for _ in 0..self.draws.below(7) {
            self.step(rt)?;
        }
        Ok(())
    }

    fn edit_all(&mut self, rt: R, edits: Vec<(Snowflake, Edit)>) -> anyhow::Result<()> {
        for (guild, edit) in edits {
            self.edit(rt, guild, edit)?;
        }
        Ok(())
    }

    // The worker is told of all that was cut, and looks at all edits.
    fn calm(&mut self) -> anyhow::Result<()> {
        for _ in 0..self.ends.untold.len() {
            self.ends.tell(None)?;
        }
        self.ends.look(0)?;
        self.ends.look(1)
    }

    // Both ends are given what comes next. Whether something came.
    fn give_both(&mut self, rt: R) -> anyhow::Result<bool> {
        self.ends.learn()?;
        if !self.ends.is_connected {
            self.ends.dial(rt)?;
        }
        let is_heard = self.ends.give_worker()?;
        let is_given = self.ends.give_client()?;
        Ok(is_heard || is_given)
    }

    // The connection is left whole until nothing is on its way.
    fn settle(&mut self, rt: R) -> anyhow::Result<()> {
        self.calm()?;
        for _ in 0..ENOUGH {
            if !self.give_both(rt)? {
                break;
            }
        }
        Ok(())
    }

    // The last resume has nothing to bring: only then was the client given all of its session.
    fn play(&mut self, rt: R, edits: Vec<(Snowflake, Edit)>) -> anyhow::Result<()> {
        self.edit_all(rt, edits)?;
        self.settle(rt)?;
        self.ends.cut(&mut self.draws)?;
        self.settle(rt)
    }

    // Plays the run of these edits and intents to its end, and judges it.
    fn judge(
        &mut self,
        rt: R,
        edits: Vec<(Snowflake, Edit)>,
        intents: Intents,
    ) -> anyhow::Result<Counts> {
        self.play(rt, edits)?;
        let mut counts = self.ends.counts();
        counts.right = u64::from(self.ends.is_right(intents)?);
        Ok(counts)
    }
}

fn drawn_intents(draws: &mut Draws) -> anyhow::Result<Intents> {
    let index = draws.below(4) as usize;
    let bits = INTENTS.get(index).copied().unwrap_or(1);
    Ok(Intents::of_bits(bits)?)
}

/// What happens in the run of a seed.
pub fn play_run<R: Wait + Copy + Drop>(rt: R, alloc: Global, seed: u64) -> anyhow::Result<Counts> {
    let mut draws = Draws::new(seed);
    let pace = drawn_pace(seed, &mut draws);
    let intents = drawn_intents(&mut draws)?;
    let edits = script::edits(alloc, seed, pace.edits as usize)?;
    let ends = TwoEnds::new(alloc, intents)?;
    let mut run = Run {
        ends,
        draws,
        pace,
        away: 0,
    };
    let judged = run.judge(rt, edits, intents);
    drop(run);
    judged
}
