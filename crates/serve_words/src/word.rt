//! What a word is: a number, a URL, a token, a set of intents.

ghost use Rattle.std.specs.Prelude.{◌≡◌, ◌≤◌, option_map, IfSome};
ghost use Rattle.serve_words.specs.Words.{number_of, number_to, url_of, token_of, intents_of};

use intent_set::Intents;
use snowflake_id::Snowflake;

// What the URL of a WebSocket without TLS begins with (RFC 6455, WebSocket URIs).
const SCHEME: &str = "ws://";

const MOST_URL_BYTES: usize = 200;

const MOST_TOKEN_BYTES: usize = 100;

/// The number that a word is: digits, whose value is below 2^64. Ids are written so too.
pub fn number_of(word: &str) -> Option<u64>
    ensures { result ≡ number_of word.now }
{
    match Snowflake::parse(word) {
        Ok(number) => Some(number.0),
        Err(_) => None,
    }
}

/// The number that a word is, if it is from 1 to `most`.
pub fn number_to(most: u64, word: &str) -> Option<u64>
    ensures is { result ≡ number_to most word.now }
    ensures bound { IfSome result (λ number. number ≤ most) }
{
    let number = number_of(word)?;
    if 1 <= number && number <= most {
        Some(number)
    } else {
        None
    }
}

/// The URL that a word is: it begins with `ws://`, and has at most 200 bytes.
pub fn url_of(word: &str) -> Option<&str>
    ensures { option_map (λ url. url.now) result ≡ url_of word.entry.now }
{
    if word.as_bytes().starts_with(SCHEME.as_bytes()) && word.len() <= MOST_URL_BYTES {
        Some(word)
    } else {
        None
    }
}

/// The token that a word is: it has 1 to 100 bytes, and is not the dash, which is a file alone.
pub fn token_of(word: &str) -> Option<&str>
    ensures { option_map (λ token. token.now) result ≡ token_of word.entry.now }
{
    if 1 <= word.len() && word.len() <= MOST_TOKEN_BYTES && word != "-" {
        Some(word)
    } else {
        None
    }
}

/// The set of intents that a word is: a number each of whose bits is an intent's.
#[tactic(auto, using(crate::proofs::Intents::are_intents_alone))]
pub fn intents_of(word: &str) -> Option<Intents>
    ensures { result ≡ intents_of word.now }
{
    match Intents::of_bits(number_of(word)?) {
        Ok(intents) => Some(intents),
        Err(_) => None,
    }
}
