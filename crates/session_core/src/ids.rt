//! The ids of sessions (Gateway Events, Ready).

ghost use Rattle.std.specs.Prelude.{◌≡◌, ◌++◌, ◌<◌, ◌^◌, ℕ, Some, decimal, codes, string_bytes, IfOk, IfSome};
ghost use Rattle.session_core.specs.Resume.{session_id};

use collections::Text;
use itoa::Buffer;
use snowflake_id::Snowflake;
use std::alloc::{AllocError, Global};

/// What the ids of a worker's sessions begin with.
fn front(alloc: Global, worker: u8) -> Result<String, AllocError>
    ensures { IfOk result (λ front. string_bytes front ≡ codes "w" ++ (decimal worker ++ codes "s")) }
{
    let mut text = String::new(alloc);
    let mut buffer = Buffer::new();
    text.push_str("w")?;
    text.push_str(buffer.format(worker))?;
    text.push_str("s")?;
    Ok(text)
}

/// The id of a session: of its worker, and of its number there.
pub fn session_id(alloc: Global, worker: u8, number: u32) -> Result<Text, AllocError>
    ensures { IfOk result (λ id. id ≡ session_id worker number) }
{
    let mut text = front(alloc, worker)?;
    let mut buffer = Buffer::new();
    text.push_str(buffer.format(number))?;
    Ok(Text::from_string(text))
}

/// The number that follows this front in a text.
fn number_after(text: &str, front: &str) -> Option<u32>
    ensures { (n : ℕ) → n < 2 ^ 32 → text.now ≡ front.now ++ decimal n → result ≡ Some n }
{
    let digits = text.strip_prefix(front)?;
    let Ok(number) = Snowflake::parse(digits) else {
        return None;
    };
    if number.0 > u32::MAX as u64 {
        return None;
    }
    Some(number.0 as u32)
}

/// The number in the id of a session of this worker. `None` for any other text.
pub fn number_of(alloc: Global, worker: u8, id: &str) -> Result<Option<u32>, AllocError>
    ensures is { IfOk result (λ number. IfSome number (λ n. session_id worker n ≡ id.now)) }
    ensures all { IfOk result (λ number. (n : ℕ) → n < 2 ^ 32 → session_id worker n ≡ id.now → number ≡ Some n) }
{
    let front = front(alloc, worker)?;
    let Some(number) = number_after(id, front.as_str()) else {
        return Ok(None);
    };
    let own = session_id(alloc, worker, number)?;
    if !own.is(id) {
        return Ok(None);
    }
    Ok(Some(number))
}
