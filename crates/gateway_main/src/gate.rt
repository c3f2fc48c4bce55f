//! The command, over a house and a team.

ghost use Rattle.std.specs.Prelude.{◌≡◌, None, map, string_bytes};
ghost use Rattle.world_law.specs.TheLaw.{TheLaw};
ghost use Rattle.serve_words.specs.Words.{command_of};
ghost use Rattle.serve_run.specs.Serving.{sink_tale, team_tale};
ghost use Rattle.file_commands.specs.Lifting.{MeansTheSame};
ghost use Rattle.gateway_main.specs.Gate.{outside, Does};

use crate::fault::GateFault;
use crate::following::run_client;
use crate::loading::run_load;
use crate::statuses::{
    follow_fault, follow_status, lift_fault, load_fault, load_status, play_fault, serve_fault,
    serve_status,
};
use file_commands::{NO_MEMORY, lift_file, lift_law, lift_status, play_file, play_status, refuse};
use gate_outside::doors::Door;
use gate_outside::houses::House;
use gate_outside::spawners::Spawner;
use load_parts::LoadPart;
use serve_parts::ServePart;
use serve_run::run_serve;
use serve_words::{Command, read_words};
use std::alloc::Global;
use std::sync::Wait;
use std::time;
use world_law::the_law;

/// Does what the words say, and answers the exit status.
///
/// `run FILE` plays the step file and writes its transcript: 0, or 3 if the file cannot be read, 4 if the
/// sink fails, 5 if a line is no step, 6 if memory runs out, 12 if a count is at its last value.
///
/// `load SEED` runs the load with that seed, whose parts the team starts, and writes its summary: 0, or 4
/// if the sink fails, 6 if memory runs out, 7 if a door fails, 8 if a part does not start, 10 if a
/// client's link gives a code after which no client may connect again, 11 if it gives a text that is no
/// payload, 12 if a count is at its last value.
///
/// `serve PORT WORKERS ACCEPTS FILES` serves those who connect to the ports from PORT on, one for each worker, while
/// the scripts of the files run, whose parts the other team starts: 0, or 3 if a file cannot be read, 4 if the sink
/// fails, 5 if a line is no step, 6 if memory runs out, 7 if a port cannot be listened on or its door fails, 8 if a
/// part does not start, 12 if a count is at its last value.
///
/// `client URL TOKEN INTENTS COUNT` follows the gateway at that URL as a bot with that token and those intents, over the
/// house's dial, and writes a line for each of COUNT dispatches, and then one for each guild of which it holds a view:
/// 0, or 4 if the sink fails, 6 if memory runs out, 9 if nine dials and links fail, one after another, without a text
/// between them, 10 if the gateway closes with a code after which no client may connect again, 11 if it sends a text
/// that is no payload.
///
/// `lift FILE` writes each line of the step file in its newest version, and an empty line for a blank one: 0, or 3 if
/// the file cannot be read, 4 if the sink fails, 5 if a line is no step or its newest version is too long, 6 if memory
/// runs out. With 0 what it wrote plays the same as the file.
///
/// For other words it writes the usage line and answers 2, or 6 if memory runs out.
///
/// What waited before the sink goes out first. `fault` is then why a play, a load, a run of `serve`, a client or a lift
/// did not come to its end; `None` if it did, or if memory ran out before it began. No dial of the house has failed yet.
pub fn gate<
    R: Wait + time::Clock + Copy + Drop,
    H: House,
    S: Spawner<LoadPart<H::Time, R>>,
    T: Spawner<ServePart<H::In, H::Gate, H::Time, R>>,
>(
    rt: R,
    alloc: Global,
    words: &[String],
    house: &mut H,
    sink: &mut H::Out,
    load_team: &mut S,
    serve_team: &mut T,
    fault: &mut Option<GateFault>,
) -> u8
where
    H::In: Drop,
    H::Gate: Drop,
    H::Time: Drop,
    <H::Gate as Door>::Wire: Drop,
    H::Wire: Drop,
    requires { (H.tale house.old).dry_run ≡ 0 }
    ensures words { result ≡ 2 → command_of (map string_bytes words.now) ≡ None }
    ensures does { Does R (command_of (map string_bytes words.now))
        (outside (H.house_tale house.old) (H.tale house.old) (H.faults house.old)
        (sink_tale (H.Out.got sink.old) (H.Out.waits sink.old) (H.Out.faults sink.old))
        (team_tale (S.starts load_team.old) (S.faults load_team.old))
        (team_tale (T.starts serve_team.old) (T.faults serve_team.old)))
        (outside (H.house_tale house.new) (H.tale house.new) (H.faults house.new)
        (sink_tale (H.Out.got sink.new) (H.Out.waits sink.new) (H.Out.faults sink.new))
        (team_tale (S.starts load_team.new) (S.faults load_team.new))
        (team_tale (T.starts serve_team.new) (T.faults serve_team.new)))
        fault.new result }
    ensures law { TheLaw }
    ensures means { MeansTheSame }
{
    the_law();
    lift_law();
    *fault = None;
    let Ok(command) = read_words(alloc, words) else {
        return NO_MEMORY;
    };
    let Some(command) = command else {
        return refuse(sink);
    };
    match command {
        Command::Run { file } => {
            let played = play_file(alloc, file, house, sink);
            *fault = play_fault(&played);
            play_status(&played)
        }
        Command::Load { seed } => {
            let loaded = run_load(rt, alloc, seed, house, sink, load_team);
            *fault = load_fault(&loaded);
            load_status(&loaded)
        }
        Command::Serve {
            port,
            workers,
            accepts,
            files,
        } => {
            let ended = run_serve(
                rt, alloc, port, workers, accepts, files, house, sink, serve_team,
            );
            *fault = serve_fault(&ended);
            serve_status(&ended)
        }
        Command::Client {
            url,
            token,
            intents,
            count,
        } => {
            let followed = run_client(&rt, alloc, url, token, intents, count, house, sink);
            *fault = follow_fault(&followed);
            follow_status(&followed)
        }
        Command::Lift { file } => {
            let lifted = lift_file(alloc, file, house, sink);
            *fault = lift_fault(&lifted);
            lift_status(&lifted)
        }
    }
}
