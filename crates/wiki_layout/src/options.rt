// The options of a served farm, read by hand: one option after another, each at most once.
ghost use Rattle.std.specs.Prelude.{◌≡◌, ◌≤◌, ◌<◌, ◌&&◌, ◌||◌, if◌then◌else◌, Some, None, option_map, length, codes, IfSome};
ghost use Rattle.wiki_model.specs.Commands.{is_path};
ghost use Rattle.wiki_layout.specs.Options.{is_numeral, is_in_limit, count_in, path_in, after_prefix, in_one, with_value, name_in, has, with, begun_named, begun, found_from, nothing, OptionsAre, store_of, count_or_store, options_found, options_read};
ghost use Rattle.wiki_layout.specs.AsModel.{given_of, found_of, options_of, texts_of};

use farm_base::bytes::are_digits;

/// The most connections that a served farm takes.
pub const CONNECTIONS_MAX: u64 = 1_000_000; // connections

/// How many connections a served farm takes if no word says it.
pub const CONNECTIONS_DEFAULT: u64 = 1; // connection

/// The options of a served farm.
#[derive(Clone, Copy, Debug, PartialEq, Eq)]
pub struct Options<'a> {
    /// After how many connections it ends: 1 to 1,000,000.
    pub connections: u64,
    /// The file that keeps the history, which is not empty and does not begin with `-`; none: it is kept in memory.
    pub store: Option<&'a str>,
    /// Whether it hands its history on to another program.
    pub link: bool,
}

// What was found so far.
#[derive(Clone, Copy, Debug, PartialEq, Eq)]
struct Found<'a> {
    connections: Option<u64>,
    store: Option<&'a str>,
    link: bool,
}

const NOTHING: Found<'static> = Found {
    connections: None,
    store: None,
    link: false,
};

// An option that stands among the words.
#[derive(Clone, Copy, Debug, PartialEq, Eq)]
enum Given<'a> {
    Connections(u64),
    Store(&'a str),
    Link,
}

/// The options that the words are; none if they are no options. Each option stands at most once, in any order, with its
/// value in the next word or after `=`. It takes no memory.
pub fn read_options(words: &[String]) -> Option<Options<'_>>
    ensures { OptionsAre (texts_of words.now) (option_map options_of result) }
{
    options_in(words)
}

fn options_in(words: &[String]) -> Option<Options<'_>>
    ensures { option_map options_of result ≡ options_read (texts_of words.now) }
{
    match found_in(words) {
        Some(found) => Some(options_found(found)),
        None => None,
    }
}

fn options_found(found: Found<'_>) -> Options<'_>
    ensures { options_of result ≡ options_found (found_of found.entry) }
{
    Options {
        connections: found.connections.unwrap_or(CONNECTIONS_DEFAULT),
        store: found.store,
        link: found.link,
    }
}

fn found_in(words: &[String]) -> Option<Found<'_>>
    ensures { option_map found_of result ≡ found_from nothing (texts_of words.now) }
{
    let mut found = NOTHING;
    let mut rest = words;
    while !rest.is_empty() {
        let Some((given, more)) = begun(rest) else {
            return None;
        };
        if has(&found, given) {
            return None;
        }
        found = with(found, given);
        rest = more;
    }
    Some(found)
}

fn has(found: &Found<'_>, given: Given<'_>) -> bool
    ensures { result ≡ has (given_of given.entry) (found_of found.now) }
{
    match given {
        Given::Connections(_) => found.connections.is_some(),
        Given::Store(_) => found.store.is_some(),
        Given::Link => found.link,
    }
}

fn with<'a>(found: Found<'a>, given: Given<'a>) -> Found<'a>
    ensures { found_of result ≡ with (given_of given.entry) (found_of found.entry) }
{
    match given {
        Given::Connections(n) => Found {
            connections: Some(n),
            ..found
        },
        Given::Store(path) => Found {
            store: Some(path),
            ..found
        },
        Given::Link => Found {
            link: true,
            ..found
        },
    }
}

// The first option of the words, and the words after it.
fn begun(words: &[String]) -> Option<(Given<'_>, &[String])>
    ensures value { option_map (λ x. (given_of x.0, texts_of x.1.now)) result ≡ begun (texts_of words.now) }
    ensures shorter { IfSome result (λ x. length x.1.now < length words.now) }
{
    let Some((word, rest)) = words.split_first() else {
        return None;
    };
    match name_in(word.as_str()) {
        Some(is_count) => begun_named(is_count, rest),
        None => match in_one(word.as_str()) {
            Some(given) => Some((given, rest)),
            None => None,
        },
    }
}

// The option whose name stood before these words, with the first of them as its value.
fn begun_named(is_count: bool, words: &[String]) -> Option<(Given<'_>, &[String])>
    ensures value { option_map (λ x. (given_of x.0, texts_of x.1.now)) result
        ≡ begun_named is_count (texts_of words.now) }
    ensures shorter { IfSome result (λ x. length x.1.now < length words.now) }
{
    let Some((value, rest)) = words.split_first() else {
        return None;
    };
    match with_value(is_count, value.as_str()) {
        Some(given) => Some((given, rest)),
        None => None,
    }
}

// Whether the word names an option whose value is the next word, and whether that is a number.
fn name_in(word: &str) -> Option<bool>
    ensures { result ≡ name_in word.now }
{
    if word == "--connections" {
        return Some(true);
    }
    if word == "--store" {
        return Some(false);
    }
    None
}

// An option in one word.
fn in_one(word: &str) -> Option<Given<'_>>
    ensures { option_map given_of result ≡ in_one word.now }
{
    if word == "--link" {
        return Some(Given::Link);
    }
    count_or_store(word)
}

fn count_or_store(word: &str) -> Option<Given<'_>>
    ensures { option_map given_of result ≡ count_or_store (after_prefix (codes "--connections=") word.now) word.now }
{
    match after_prefix(word, "--connections=") {
        Some(value) => with_value(true, value),
        None => store_in(word),
    }
}

fn store_in(word: &str) -> Option<Given<'_>>
    ensures { option_map given_of result ≡ store_of (after_prefix (codes "--store=") word.now) }
{
    match after_prefix(word, "--store=") {
        Some(value) => with_value(false, value),
        None => None,
    }
}

// What stands after this prefix, if the word begins with it.
#[tactic(auto, using(crate::proofs::Prefixes::stripped))]
fn after_prefix<'a>(word: &'a str, prefix: &str) -> Option<&'a str>
    ensures { option_map (λ rest. rest.now) result ≡ after_prefix prefix.now word.now }
{
    word.strip_prefix(prefix)
}

fn with_value(is_count: bool, value: &str) -> Option<Given<'_>>
    ensures { option_map given_of result ≡ with_value is_count value.now }
{
    if is_count {
        match count_in(value) {
            Some(n) => Some(Given::Connections(n)),
            None => None,
        }
    } else {
        match path_in(value) {
            Some(path) => Some(Given::Store(path)),
            None => None,
        }
    }
}

fn path_in(word: &str) -> Option<&str>
    ensures { option_map (λ path. path.now) result ≡ path_in word.now }
{
    if is_path(word) { Some(word) } else { None }
}

fn is_path(word: &str) -> bool
    ensures { result ≡ is_path word.now }
{
    let bytes = word.as_bytes();
    0 < bytes.len() && bytes[0] != b'-'
}

#[tactic(auto, unfolding(crate::specs::Options::count_in))]
fn count_in(word: &str) -> Option<u64>
    ensures { result ≡ count_in word.now }
{
    if !is_numeral(word.as_bytes()) {
        return None;
    }
    match word.parse::<u64>() {
        Ok(n) => if is_in_limit(n) { Some(n) } else { None },
        Err(_) => None,
    }
}

fn is_numeral(bytes: &[u8]) -> bool
    ensures { result ≡ is_numeral bytes.now }
{
    0 < bytes.len() && are_digits(bytes) && (bytes.len() < 2 || b'0' < bytes[0])
}

fn is_in_limit(n: u64) -> bool
    ensures { result ≡ is_in_limit n }
{
    0 < n && n <= CONNECTIONS_MAX
}
