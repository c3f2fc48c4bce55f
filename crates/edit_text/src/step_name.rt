//! The names of steps.

ghost use Rattle.std.specs.Prelude.{◌≡◌};
ghost use Rattle.edit_text.specs.StepNames.{step_named, step_text, is_head};

/// A step, by its name.
#[derive(Clone, Copy)]
pub enum StepName {
    Bot,
    Guild,
    Edit,
    Look,
    Open,
    Frame,
    Lost,
    Closed,
    Tick,
}

impl StepName {
    /// Every step.
    pub const ALL: [StepName; 9] = [
        StepName::Bot,
        StepName::Guild,
        StepName::Edit,
        StepName::Look,
        StepName::Open,
        StepName::Frame,
        StepName::Lost,
        StepName::Closed,
        StepName::Tick,
    ];

    /// The step of this name; `None` exactly if no step has it.
    #[tactic(auto, unfolding(crate::specs::StepNames::step_named))]
    pub fn of(name: &str) -> Option<StepName>
        ensures { result ≡ step_named name.now }
    {
        StepName::ALL
            .iter()
            .copied()
            .find(|step| name == step.text())
    }

    /// The name of the step.
    pub fn text(self) -> &'static str
        ensures { result.now ≡ step_text self }
    {
        match self {
            StepName::Bot => "bot",
            StepName::Guild => "guild",
            StepName::Edit => "edit",
            StepName::Look => "look",
            StepName::Open => "open",
            StepName::Frame => "frame",
            StepName::Lost => "lost",
            StepName::Closed => "closed",
            StepName::Tick => "tick",
        }
    }

    /// Whether the lines of this step stand before all others.
    pub fn is_head(self) -> bool
        ensures { result ≡ is_head self }
    {
        matches!(self, StepName::Bot | StepName::Guild)
    }
}
