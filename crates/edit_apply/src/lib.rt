//! All edits of a guild: which are accepted, and what they make of its record.
#![tactic(auto)]

ghost use Rattle.std.specs.Prelude.{◌≡◌, ◌∷◌, [], None, IfOk, OnOk, OnErr};
ghost use Rattle.guild_model.specs.Tests.{outcome, first_of};
ghost use Rattle.edit_apply.specs.Edits.{verdict, applied, after, KeepsWell, StaysWell};
ghost use Rattle.edit_apply.specs.Guilds.{out_of_service};
ghost use Rattle.role_member_edit.specs.RoleMember.{role_member_verdict};
ghost use Rattle.channel_edit.specs.ChannelEdits.{channel_verdict};
ghost use Rattle.thread_edit.specs.ThreadEdits.{thread_verdict};
ghost use Rattle.voice_presence.specs.VoicePresence.{voice_presence_verdict};
ghost use Rattle.message_edit.specs.MessageEdits.{message_verdict};

pub mod guild;

pub use channel_edit::ChannelEdit;
pub use guild::{GuildEdit, GuildOpen};
use guild_model::{Guild, Verdict};
pub use message_edit::{MessageBody, MessageEdit};
pub use role_member_edit::RoleMemberEdit;
use std::alloc::{AllocError, Global};
pub use thread_edit::ThreadEdit;
pub use voice_presence::VoicePresenceEdit;

/// An edit of a guild.
pub enum Edit {
    /// An edit of the guild itself.
    Guild(GuildEdit),
    /// An edit of its roles and members.
    RoleMember(RoleMemberEdit),
    /// An edit of its channels and their overwrites.
    Channel(ChannelEdit),
    /// An edit of its threads.
    Thread(ThreadEdit),
    /// An edit of its voice states and presences.
    VoicePresence(VoicePresenceEdit),
    /// An edit of its messages, of reactions to them, or of who types.
    Message(MessageEdit),
}

// One call drops it, so that no crate above proves the drop of each of its parts again.
impl Drop for Edit {
    fn drop(self) {
        match self {
            Edit::Guild(edit) => drop(edit),
            Edit::RoleMember(edit) => drop(edit),
            Edit::Channel(edit) => drop(edit),
            Edit::Thread(edit) => drop(edit),
            Edit::VoicePresence(_) => {}
            Edit::Message(edit) => drop(edit),
        }
    }
}

impl Edit {
    /// An edit that is equal to this.
    pub fn copy(&self, alloc: Global) -> Result<Edit, AllocError>
        ensures { IfOk result (λ copy. copy ≡ self.now) }
    {
        Ok(match self {
            Edit::Guild(edit) => Edit::Guild(edit.copy(alloc)?),
            Edit::RoleMember(edit) => Edit::RoleMember(edit.copy(alloc)?),
            Edit::Channel(edit) => Edit::Channel(edit.copy(alloc)?),
            Edit::Thread(edit) => Edit::Thread(edit.copy(alloc)?),
            Edit::VoicePresence(edit) => Edit::VoicePresence(*edit),
            Edit::Message(edit) => Edit::Message(edit.copy(alloc)?),
        })
    }
}

impl Edit {
    // As the function `make`. Only a method takes an edit apart.
    fn make(self, alloc: Global, guild: &mut Guild) -> Result<(), AllocError>
        requires accepted { verdict guild.old self ≡ None }
        ensures ok { OnOk result (guild.new ≡ applied guild.old self) }
        ensures err { OnErr result (guild.new ≡ guild.old) }
    {
        match self {
            Edit::Guild(edit) => guild::apply(alloc, guild, edit),
            Edit::RoleMember(edit) => role_member_edit::apply(alloc, guild, edit),
            Edit::Channel(edit) => channel_edit::apply(alloc, guild, edit),
            Edit::Thread(edit) => thread_edit::apply(alloc, guild, edit),
            Edit::VoicePresence(edit) => voice_presence::apply(guild, edit),
            Edit::Message(edit) => message_edit::apply(alloc, guild, edit),
        }
    }
}

/// Refuses a guild that is not open, then a guild in an outage.
pub fn in_service(guild: &Guild) -> Result<(), Verdict>
    ensures { result ≡ outcome (out_of_service guild.now) }
{
    if !guild.opened {
        return Err(Verdict::NotOpen);
    }
    if guild.outage {
        return Err(Verdict::Unavailable);
    }
    Ok(())
}

fn judge_role_member(guild: &Guild, edit: &RoleMemberEdit) -> Result<(), Verdict>
    ensures { result ≡ outcome (first_of (out_of_service guild.now ∷ role_member_verdict guild.now edit.now ∷ [])) }
{
    in_service(guild)?;
    role_member_edit::check(guild, edit)
}

fn judge_channel(guild: &Guild, edit: &ChannelEdit) -> Result<(), Verdict>
    ensures { result ≡ outcome (first_of (out_of_service guild.now ∷ channel_verdict guild.now edit.now ∷ [])) }
{
    in_service(guild)?;
    channel_edit::check(guild, edit)
}

fn judge_thread(guild: &Guild, edit: &ThreadEdit) -> Result<(), Verdict>
    ensures { result ≡ outcome (first_of (out_of_service guild.now ∷ thread_verdict guild.now edit.now ∷ [])) }
{
    in_service(guild)?;
    thread_edit::check(guild, edit)
}

fn judge_voice_presence(guild: &Guild, edit: &VoicePresenceEdit) -> Result<(), Verdict>
    ensures { result ≡ outcome (first_of (out_of_service guild.now ∷ voice_presence_verdict guild.now edit.now ∷ [])) }
{
    in_service(guild)?;
    voice_presence::check(guild, edit)
}

fn judge_message(guild: &Guild, edit: &MessageEdit) -> Result<(), Verdict>
    ensures { result ≡ outcome (first_of (out_of_service guild.now ∷ message_verdict guild.now edit.now ∷ [])) }
{
    in_service(guild)?;
    message_edit::check(guild, edit)
}

/// Refuses an edit with the verdict of its first test that fails. Does not allocate.
pub fn judge(guild: &Guild, edit: &Edit) -> Result<(), Verdict>
    ensures { result ≡ outcome (verdict guild.now edit.now) }
{
    match edit {
        Edit::Guild(edit) => guild::check(guild, edit),
        Edit::RoleMember(edit) => judge_role_member(guild, edit),
        Edit::Channel(edit) => judge_channel(guild, edit),
        Edit::Thread(edit) => judge_thread(guild, edit),
        Edit::VoicePresence(edit) => judge_voice_presence(guild, edit),
        Edit::Message(edit) => judge_message(guild, edit),
    }
}

/// Makes an edit that [`judge`] does not refuse. If it runs out of memory, the record stays as it
/// was.
pub fn make(alloc: Global, guild: &mut Guild, edit: Edit) -> Result<(), AllocError>
    requires accepted { verdict guild.old edit ≡ None }
    ensures ok { OnOk result (guild.new ≡ applied guild.old edit) }
    ensures err { OnErr result (guild.new ≡ guild.old) }
{
    edit.make(alloc, guild)
}

/// Judges an edit and makes it if it is accepted. If it is refused, or memory runs out, the record
/// stays as it was.
pub fn apply(
    alloc: Global,
    guild: &mut Guild,
    edit: Edit,
) -> Result<Result<(), Verdict>, AllocError>
    ensures judged { IfOk result (λ answer. answer ≡ outcome (verdict guild.old edit)) }
    ensures record { OnOk result (guild.new ≡ after guild.old edit) }
    ensures memory { OnErr result (guild.new ≡ guild.old) }
{
    if let Err(verdict) = judge(guild, &edit) {
        return Ok(Err(verdict));
    }
    make(alloc, guild, edit)?;
    Ok(Ok(()))
}

/// An edit of a record in which the lists ascend and hold together leaves it so.
pub fn keeps_well()
    ensures { KeepsWell }
{}

/// After any edits of a guild, the lists of its record ascend and hold together.
pub fn stays_well()
    ensures { StaysWell }
{}
