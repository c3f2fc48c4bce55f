//! The edits of a guild itself (Gateway Events, Guild Create, Update and Delete).

ghost use Rattle.std.specs.Prelude.{◌≡◌, ◌∷◌, [], None, true, false, OnOk, OnErr, IfOk};
ghost use Rattle.guild_model.specs.Tests.{outcome, first_of, too_long, unknown_member};
ghost use Rattle.edit_apply.specs.Guilds.{guild_verdict, guild_applied, guild_open_verdict, guild_opened, guild_back_verdict, everyone, out_of_service};
ghost use Rattle.role_member_edit.specs.Members.{new_member};

use crate::in_service;
use collections::{ById, Text};
use guild_model::{Guild, Member, Moment, Role, User, Verdict, limits, rules};
use perm_bits::Perms;
use snowflake_id::Snowflake;
use std::alloc::{AllocError, Global};

/// An edit of the guild itself.
#[derive(Drop)]
pub enum GuildEdit {
    /// Opens the guild with the role `@everyone` and its owner as a member.
    GuildOpen(GuildOpen),
    /// Renames the guild.
    GuildRename { name: Text },
    /// Makes a member the owner.
    GuildOwner { user: Snowflake },
    /// Begins an outage (Guild Resource, Unavailable Guild Object).
    GuildOutage,
    /// Ends the outage.
    GuildBack,
    /// Lets the guild withhold channels from those who do not see them, or show all of them to everyone.
    GuildPrivate { private: bool },
}

/// A new guild.
#[derive(Drop)]
pub struct GuildOpen {
    pub name: Text,
    pub owner: Snowflake,
    pub owner_name: Text,
    /// What `@everyone` may do.
    pub perms: Perms,
    /// When the owner joins.
    pub at: Moment,
}

impl GuildOpen {
    /// An edit that is equal to this.
    pub fn copy(&self, alloc: Global) -> Result<GuildOpen, AllocError>
        ensures { IfOk result (λ copy. copy ≡ self.now) }
    {
        Ok(GuildOpen {
            name: self.name.copy(alloc)?,
            owner: self.owner,
            owner_name: self.owner_name.copy(alloc)?,
            perms: self.perms,
            at: self.at,
        })
    }
}

impl GuildEdit {
    /// An edit that is equal to this.
    pub fn copy(&self, alloc: Global) -> Result<GuildEdit, AllocError>
        ensures { IfOk result (λ copy. copy ≡ self.now) }
    {
        Ok(match self {
            GuildEdit::GuildOpen(edit) => GuildEdit::GuildOpen(edit.copy(alloc)?),
            GuildEdit::GuildRename { name } => GuildEdit::GuildRename {
                name: name.copy(alloc)?,
            },
            GuildEdit::GuildOwner { user } => GuildEdit::GuildOwner { user: *user },
            GuildEdit::GuildOutage => GuildEdit::GuildOutage,
            GuildEdit::GuildBack => GuildEdit::GuildBack,
            GuildEdit::GuildPrivate { private } => GuildEdit::GuildPrivate { private: *private },
        })
    }
}

fn check_open(guild: &Guild, edit: &GuildOpen) -> Result<(), Verdict>
    ensures { result ≡ outcome (guild_open_verdict guild.now edit.now) }
{
    if guild.opened {
        return Err(Verdict::AlreadyOpen);
    }
    rules::within(&edit.name, limits::NAME_BYTES)?;
    rules::within(&edit.owner_name, limits::NAME_BYTES)
}

fn check_back(guild: &Guild) -> Result<(), Verdict>
    ensures { result ≡ outcome (guild_back_verdict guild.now) }
{
    if !guild.opened {
        return Err(Verdict::NotOpen);
    }
    if !guild.outage {
        return Err(Verdict::AlreadyOpen);
    }
    Ok(())
}

fn check_rename(guild: &Guild, name: &Text) -> Result<(), Verdict>
    ensures { result ≡ outcome (first_of (out_of_service guild.now ∷ too_long 100 name.now ∷ [])) }
{
    in_service(guild)?;
    rules::within(name, limits::NAME_BYTES)
}

fn check_owner(guild: &Guild, user: Snowflake) -> Result<(), Verdict>
    ensures { result ≡ outcome (first_of (out_of_service guild.now ∷ unknown_member guild.now user ∷ [])) }
{
    in_service(guild)?;
    rules::knows_member(guild, user)
}

/// Refuses an edit with the verdict of its first test that fails. A guild opens once, and only an
/// outage can end. Every other edit needs an open guild without an outage.
pub fn check(guild: &Guild, edit: &GuildEdit) -> Result<(), Verdict>
    ensures { result ≡ outcome (guild_verdict guild.now edit.now) }
{
    match edit {
        GuildEdit::GuildOpen(edit) => check_open(guild, edit),
        GuildEdit::GuildRename { name } => check_rename(guild, name),
        GuildEdit::GuildOwner { user } => check_owner(guild, *user),
        GuildEdit::GuildOutage => in_service(guild),
        GuildEdit::GuildBack => check_back(guild),
        GuildEdit::GuildPrivate { .. } => in_service(guild),
    }
}

// The roles of a new guild: @everyone, which has the guild's id.
fn first_roles(alloc: Global, guild: Snowflake, perms: Perms) -> Result<ById<Role>, AllocError>
    ensures { IfOk result (λ roles. roles ≡ everyone guild perms ∷ []) }
{
    let mut roles = ById::new(alloc);
    roles.insert(Role {
        id: guild,
        name: Text::new(alloc, "@everyone")?,
        permissions: perms,
        position: 0,
    })?;
    Ok(roles)
}

// The members of a new guild: its owner.
fn first_members(
    alloc: Global,
    owner: Snowflake,
    name: Text,
    at: Moment,
) -> Result<ById<Member>, AllocError>
    ensures { IfOk result (λ members. members ≡ new_member owner name false at ∷ []) }
{
    let mut members = ById::new(alloc);
    members.insert(Member {
        user: User {
            id: owner,
            name,
            bot: false,
        },
        nick: None,
        roles: ById::new(alloc),
        joined: at,
        timeout: None,
    })?;
    Ok(members)
}

fn open(alloc: Global, guild: &mut Guild, edit: GuildOpen) -> Result<(), AllocError>
    requires { guild_open_verdict guild.old edit ≡ None }
    ensures ok { OnOk result (guild.new ≡ guild_opened guild.old edit) }
    ensures err { OnErr result (guild.new ≡ guild.old) }
{
    let roles = first_roles(alloc, guild.id, edit.perms)?;
    let members = first_members(alloc, edit.owner, edit.owner_name, edit.at)?;
    guild.opened = true;
    guild.name = edit.name;
    guild.owner = edit.owner;
    guild.roles = roles;
    guild.members = members;
    Ok(())
}

fn rename(guild: &mut Guild, name: Text)
    requires { guild.old.opened ≡ true }
    ensures { guild.new ≡ guild_applied guild.old (GuildEdit.GuildRename name) }
{
    guild.name = name;
}

fn set_owner(guild: &mut Guild, user: Snowflake)
    requires { guild_verdict guild.old (GuildEdit.GuildOwner user) ≡ None }
    ensures { guild.new ≡ guild_applied guild.old (GuildEdit.GuildOwner user) }
{
    guild.owner = user;
}

fn set_outage(guild: &mut Guild, outage: bool)
    requires { guild.old.opened ≡ true }
    ensures { guild.new ≡ record guild.old { outage = outage } }
{
    guild.outage = outage;
}

fn set_private(guild: &mut Guild, private: bool)
    requires { guild.old.opened ≡ true }
    ensures { guild.new ≡ guild_applied guild.old (GuildEdit.GuildPrivate private) }
{
    guild.private = private;
}

/// Makes an edit that [`check`] does not refuse. If it runs out of memory, the record stays as it
/// was.
pub fn apply(alloc: Global, guild: &mut Guild, edit: GuildEdit) -> Result<(), AllocError>
    requires { guild_verdict guild.old edit ≡ None }
    ensures ok { OnOk result (guild.new ≡ guild_applied guild.old edit) }
    ensures err { OnErr result (guild.new ≡ guild.old) }
{
    match edit {
        GuildEdit::GuildOpen(edit) => open(alloc, guild, edit)?,
        GuildEdit::GuildRename { name } => rename(guild, name),
        GuildEdit::GuildOwner { user } => set_owner(guild, user),
        GuildEdit::GuildOutage => set_outage(guild, true),
        GuildEdit::GuildBack => set_outage(guild, false),
        GuildEdit::GuildPrivate { private } => set_private(guild, private),
    }
    Ok(())
}
