//! What the words of the command ask for.

use intent_set::Intents;

/// What the words of the command ask for.
#[derive(Clone, Copy, Debug)]
pub enum Command<'a> {
    /// `run FILE`: to play the step file of that name. `-` is standard input.
    Run {
        file: &'a str,
    },
    /// `load SEED`: to run the load of that seed.
    Load {
        seed: u64,
    },
    /// `serve PORT WORKERS ACCEPTS FILES`: to serve the clients that connect to this machine, while the
    /// step files run side by side.
    Serve {
        /// The port of the first worker, 1 to 65,532. Each other worker has the next port.
        port: u16,
        /// How many workers serve, 1 to 4.
        workers: u8,
        /// How many connections each worker accepts, 1 to 1,000,000.
        accepts: u32,
        /// The names of the step files, 1 to 12. `-` is standard input.
        files: &'a [String],
    },
    /// `client URL TOKEN INTENTS COUNT`: to follow the gateway at that URL as a bot.
    Client {
        /// The gateway's URL, which begins with `ws://`, of at most 200 bytes.
        url: &'a str,
        /// The bot's token, of 1 to 100 bytes.
        token: &'a str,
        /// The intents with which the bot identifies.
        intents: Intents,
        /// After how many dispatches it ends, 1 to 1,000,000.
        count: u32,
    },
    /// `lift FILE`: to write the step file of that name in its newest version. `-` is standard input.
    Lift {
        file: &'a str,
    },
}
