//! The permissions by their names.

ghost use Rattle.std.specs.Prelude.{◌≡◌, map};
ghost use Rattle.perm_bits.specs.Permissions.{named_permissions};

use crate::perms::Perms;

/// The permissions by their names (Permissions, Bitwise Permission Flags).
impl Perms {
    /// Allows creation of invites.
    pub const CREATE_INSTANT_INVITE: Perms = Perms(1 << 0);

    /// Allows kicking members.
    pub const KICK_MEMBERS: Perms = Perms(1 << 1);

    /// Allows banning members.
    pub const BAN_MEMBERS: Perms = Perms(1 << 2);

    /// Allows all permissions and bypasses channel overwrites.
    pub const ADMINISTRATOR: Perms = Perms(1 << 3);

    /// Allows management and editing of channels.
    pub const MANAGE_CHANNELS: Perms = Perms(1 << 4);

    /// Allows management and editing of the guild.
    pub const MANAGE_GUILD: Perms = Perms(1 << 5);

    /// Allows adding reactions to messages.
    pub const ADD_REACTIONS: Perms = Perms(1 << 6);

    /// Allows viewing of the audit log.
    pub const VIEW_AUDIT_LOG: Perms = Perms(1 << 7);

    /// Allows using priority speaker in a voice channel.
    pub const PRIORITY_SPEAKER: Perms = Perms(1 << 8);

    /// Allows the user to go live.
    pub const STREAM: Perms = Perms(1 << 9);

    /// Allows members to view a channel.
    pub const VIEW_CHANNEL: Perms = Perms(1 << 10);

    /// Allows sending messages in a channel and creating threads in a forum.
    pub const SEND_MESSAGES: Perms = Perms(1 << 11);

    /// Allows sending of `/tts` messages.
    pub const SEND_TTS_MESSAGES: Perms = Perms(1 << 12);

    /// Allows deletion of other users' messages.
    pub const MANAGE_MESSAGES: Perms = Perms(1 << 13);

    /// Links sent by users with this permission are embedded.
    pub const EMBED_LINKS: Perms = Perms(1 << 14);

    /// Allows uploading images and files.
    pub const ATTACH_FILES: Perms = Perms(1 << 15);

    /// Allows reading of message history.
    pub const READ_MESSAGE_HISTORY: Perms = Perms(1 << 16);

    /// Allows the `@everyone` tag, which notifies everyone in a channel.
    pub const MENTION_EVERYONE: Perms = Perms(1 << 17);

    /// Allows using custom emojis from other servers.
    pub const USE_EXTERNAL_EMOJIS: Perms = Perms(1 << 18);

    /// Allows viewing guild insights.
    pub const VIEW_GUILD_INSIGHTS: Perms = Perms(1 << 19);

    /// Allows joining of a voice channel.
    pub const CONNECT: Perms = Perms(1 << 20);

    /// Allows speaking in a voice channel.
    pub const SPEAK: Perms = Perms(1 << 21);

    /// Allows muting members in a voice channel.
    pub const MUTE_MEMBERS: Perms = Perms(1 << 22);

    /// Allows deafening members in a voice channel.
    pub const DEAFEN_MEMBERS: Perms = Perms(1 << 23);

    /// Allows moving members between voice channels.
    pub const MOVE_MEMBERS: Perms = Perms(1 << 24);

    /// Allows using voice activity detection in a voice channel.
    pub const USE_VAD: Perms = Perms(1 << 25);

    /// Allows modification of one's own nickname.
    pub const CHANGE_NICKNAME: Perms = Perms(1 << 26);

    /// Allows modification of other users' nicknames.
    pub const MANAGE_NICKNAMES: Perms = Perms(1 << 27);

    /// Allows management and editing of roles.
    pub const MANAGE_ROLES: Perms = Perms(1 << 28);

    /// Allows management and editing of webhooks.
    pub const MANAGE_WEBHOOKS: Perms = Perms(1 << 29);

    /// Allows editing and deleting all emojis, stickers and soundboard sounds.
    pub const MANAGE_GUILD_EXPRESSIONS: Perms = Perms(1 << 30);

    /// Allows members to use application commands.
    pub const USE_APPLICATION_COMMANDS: Perms = Perms(1 << 31);

    /// Allows requesting to speak in stage channels.
    pub const REQUEST_TO_SPEAK: Perms = Perms(1 << 32);

    /// Allows editing and deleting all scheduled events.
    pub const MANAGE_EVENTS: Perms = Perms(1 << 33);

    /// Allows deleting and archiving threads, and viewing all private threads.
    pub const MANAGE_THREADS: Perms = Perms(1 << 34);

    /// Allows creating public and announcement threads.
    pub const CREATE_PUBLIC_THREADS: Perms = Perms(1 << 35);

    /// Allows creating private threads.
    pub const CREATE_PRIVATE_THREADS: Perms = Perms(1 << 36);

    /// Allows using custom stickers from other servers.
    pub const USE_EXTERNAL_STICKERS: Perms = Perms(1 << 37);

    /// Allows sending messages in threads.
    pub const SEND_MESSAGES_IN_THREADS: Perms = Perms(1 << 38);

    /// Allows using activities in a voice channel.
    pub const USE_EMBEDDED_ACTIVITIES: Perms = Perms(1 << 39);

    /// Allows timing out users.
    pub const MODERATE_MEMBERS: Perms = Perms(1 << 40);

    /// Every permission with its name, ascending by bit.
    pub fn named() -> [(&'static str, Perms); 41]
        ensures { map (λ row. (row.0.now, row.1)) result ≡ named_permissions }
    {
        [
            ("CREATE_INSTANT_INVITE", Perms::CREATE_INSTANT_INVITE),
            ("KICK_MEMBERS", Perms::KICK_MEMBERS),
            ("BAN_MEMBERS", Perms::BAN_MEMBERS),
            ("ADMINISTRATOR", Perms::ADMINISTRATOR),
            ("MANAGE_CHANNELS", Perms::MANAGE_CHANNELS),
            ("MANAGE_GUILD", Perms::MANAGE_GUILD),
            ("ADD_REACTIONS", Perms::ADD_REACTIONS),
            ("VIEW_AUDIT_LOG", Perms::VIEW_AUDIT_LOG),
            ("PRIORITY_SPEAKER", Perms::PRIORITY_SPEAKER),
            ("STREAM", Perms::STREAM),
            ("VIEW_CHANNEL", Perms::VIEW_CHANNEL),
            ("SEND_MESSAGES", Perms::SEND_MESSAGES),
            ("SEND_TTS_MESSAGES", Perms::SEND_TTS_MESSAGES),
            ("MANAGE_MESSAGES", Perms::MANAGE_MESSAGES),
            ("EMBED_LINKS", Perms::EMBED_LINKS),
            ("ATTACH_FILES", Perms::ATTACH_FILES),
            ("READ_MESSAGE_HISTORY", Perms::READ_MESSAGE_HISTORY),
            ("MENTION_EVERYONE", Perms::MENTION_EVERYONE),
            ("USE_EXTERNAL_EMOJIS", Perms::USE_EXTERNAL_EMOJIS),
            ("VIEW_GUILD_INSIGHTS", Perms::VIEW_GUILD_INSIGHTS),
            ("CONNECT", Perms::CONNECT),
            ("SPEAK", Perms::SPEAK),
            ("MUTE_MEMBERS", Perms::MUTE_MEMBERS),
            ("DEAFEN_MEMBERS", Perms::DEAFEN_MEMBERS),
            ("MOVE_MEMBERS", Perms::MOVE_MEMBERS),
            ("USE_VAD", Perms::USE_VAD),
            ("CHANGE_NICKNAME", Perms::CHANGE_NICKNAME),
            ("MANAGE_NICKNAMES", Perms::MANAGE_NICKNAMES),
            ("MANAGE_ROLES", Perms::MANAGE_ROLES),
            ("MANAGE_WEBHOOKS", Perms::MANAGE_WEBHOOKS),
            ("MANAGE_GUILD_EXPRESSIONS", Perms::MANAGE_GUILD_EXPRESSIONS),
            ("USE_APPLICATION_COMMANDS", Perms::USE_APPLICATION_COMMANDS),
            ("REQUEST_TO_SPEAK", Perms::REQUEST_TO_SPEAK),
            ("MANAGE_EVENTS", Perms::MANAGE_EVENTS),
            ("MANAGE_THREADS", Perms::MANAGE_THREADS),
            ("CREATE_PUBLIC_THREADS", Perms::CREATE_PUBLIC_THREADS),
            ("CREATE_PRIVATE_THREADS", Perms::CREATE_PRIVATE_THREADS),
            ("USE_EXTERNAL_STICKERS", Perms::USE_EXTERNAL_STICKERS),
            ("SEND_MESSAGES_IN_THREADS", Perms::SEND_MESSAGES_IN_THREADS),
            ("USE_EMBEDDED_ACTIVITIES", Perms::USE_EMBEDDED_ACTIVITIES),
            ("MODERATE_MEMBERS", Perms::MODERATE_MEMBERS),
        ]
    }
}
