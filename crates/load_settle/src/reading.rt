//! Each reader sees its sealed log to the end.

ghost use Rattle.std.specs.Prelude.{◌≡◌, ◌<◌, ℕ, true, All, OnOk, OnErr, Some, IsSome, length, slice_index_or};
ghost use Rattle.std.specs.List.{AllZip};
ghost use Rattle.collections.specs.ById.{IsById};
ghost use Rattle.guild_hub.specs.Logs.{Published};
ghost use Rattle.load_settle.specs.Readers.{log_under, IsLogOf, HasLog, SeesToEnd, Stays, ReachesEnd, ReachesEndOrStays};

use guild_hub::{HubReader, LookRefused, SealedLog};
use snowflake_id::Snowflake;
use std::alloc::AllocError;
use std::sync::Wait;

// Looks once, and rebases where the look lags.
fn look_to_the_end(reader: &mut HubReader) -> Result<(), AllocError>
    requires { reader.old.log.sealed ≡ true }
    ensures ok { OnOk result (SeesToEnd reader.old.log reader.old reader.new) }
    ensures err { OnErr result (Stays reader.old reader.new) }
{
    match reader.look() {
        Ok(looked) => {
            drop(looked);
            Ok(())
        }
        Err(LookRefused::Lagged { .. }) => {
            let rebased = reader.rebase()?;
            drop(rebased);
            Ok(())
        }
        Err(LookRefused::Memory) => Err(AllocError),
    }
}

// Learns the note of a sealed log, and sees the log to its end.
fn read_to_the_end<R: Wait + Drop>(
    reader: &mut HubReader,
    log: &SealedLog<R>,
) -> Result<(), AllocError>
    requires { IsLogOf reader.old log.now }
    ensures ok { OnOk result (SeesToEnd log.now reader.old reader.new) }
    ensures err { OnErr result (Stays reader.old reader.new) }
{
    reader.learn(&log.tell());
    look_to_the_end(reader)
}

// The place of a guild's log, by binary search.
fn place_of<R: Wait + Drop>(logs: &[(Snowflake, SealedLog<R>)], guild: Snowflake) -> usize
    requires ascending { IsById (λ log. log.0) logs.now }
    requires there { IsSome (log_under guild logs.now) }
    ensures inside { result < length logs.now }
    ensures under { (d : ℕ × Published) → log_under guild logs.now ≡ Some (slice_index_or logs.now result d).1 }
{
    logs.partition_point(|log| log.0.0 < guild.0)
}

// The reader's log is found by its guild.
fn read_one<R: Wait + Drop>(
    logs: &[(Snowflake, SealedLog<R>)],
    reader: &mut (Snowflake, HubReader),
) -> Result<(), AllocError>
    requires ascending { IsById (λ log. log.0) logs.now }
    requires log { HasLog logs.now reader.old }
    ensures ok { OnOk result (ReachesEnd logs.now reader.old reader.new) }
    ensures err { OnErr result (ReachesEndOrStays logs.now reader.old reader.new) }
{
    let place = place_of(logs, reader.0);
    read_to_the_end(&mut reader.1, &logs[place].1)
}

/// Each reader learns the note of the sealed log of its guild and sees the log to its end. After an `Err`
/// some have seen what they had seen before.
pub fn read_to_the_ends<R: Wait + Drop>(
    logs: &[(Snowflake, SealedLog<R>)],
    readers: &mut [(Snowflake, HubReader)],
) -> Result<(), AllocError>
    requires ascending { IsById (λ log. log.0) logs.now }
    requires logs { All (HasLog logs.now) readers.old }
    ensures ok { OnOk result (AllZip (ReachesEnd logs.now) readers.old readers.new) }
    ensures err { OnErr result (AllZip (ReachesEndOrStays logs.now) readers.old readers.new) }
{
    for reader in readers.iter_mut() {
        read_one(logs, reader)?;
    }
    Ok(())
}
