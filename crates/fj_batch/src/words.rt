// The words of a batch.
ghost use Rattle.std.specs.Prelude.{◌≡◌, ◌≤◌, ◌∷◌, IfSome, string_bytes, option_map, if◌then◌else◌};
ghost use Rattle.std.specs.Prelude.{map as list_map};
ghost use Rattle.std.specs.Char.{is_ascii_alphanumeric};
ghost use Rattle.std.specs.List.{list_all, list_any};
ghost use Rattle.std.specs.Str.{bytes_eq};
ghost use lib.Pointwise.{pointwise};
ghost use Rattle.fj_report.specs.Words.{number_up_to};
ghost use Rattle.fj_batch.specs.Words.{is_name, are_apart, are_names, batch_with, batch_for, behind_workers, behind_batch, batch_of, workers_for};
ghost use Rattle.fj_batch.specs.Members.{names_of};

use crate::member::Member;
use fj_list::number;

/// The most letters of a name.
const MOST_LETTERS: usize = 16;
/// The most members.
pub(crate) const MOST_MEMBERS: usize = 64;
/// The most digits of a number.
const MOST_DIGITS: usize = 10;
/// The most workers beside a member.
const MOST_WORKERS: u64 = 4;

/// What words ask for.
#[derive(Clone, Copy)]
struct Batch<'a> {
    workers: u32,
    names: &'a [String],
}

/// Whether bytes are letters and digits.
fn are_letters(bytes: &[u8]) -> bool
    ensures { result ≡ list_all is_ascii_alphanumeric bytes.now }
{
    bytes.iter().all(|byte| byte.is_ascii_alphanumeric())
}

/// Whether a word is a name.
fn is_name(word: &str) -> bool
    ensures { result ≡ is_name word.now }
{
    let letters = word.as_bytes();
    1 <= letters.len() && letters.len() <= MOST_LETTERS && are_letters(letters)
}

/// Whether a word is among others.
fn is_among(word: &str, words: &[String]) -> bool
    ensures { result ≡ list_any (bytes_eq word.now) (list_map string_bytes words.now) }
{
    match words {
        [] => false,
        [other, words @ ..] => word == other.as_str() || is_among(word, words),
    }
}

/// Whether no word stands twice.
fn are_apart(words: &[String]) -> bool
    ensures { result ≡ are_apart (list_map string_bytes words.now) }
{
    match words {
        [] => true,
        [word, words @ ..] => !is_among(word.as_str(), words) && are_apart(words),
    }
}

/// Whether each word is a name.
fn all_names(words: &[String]) -> bool
    ensures { result ≡ list_all is_name (list_map string_bytes words.now) }
{
    match words {
        [] => true,
        [word, words @ ..] => is_name(word.as_str()) && all_names(words),
    }
}

/// Whether words are the names of a batch.
#[tactic(auto, unfolding(crate::specs::Words::are_names))]
fn are_names(words: &[String]) -> bool
    ensures { result ≡ are_names (list_map string_bytes words.now) }
{
    1 <= words.len() && words.len() <= MOST_MEMBERS && all_names(words) && are_apart(words)
}

/// A number of workers.
fn workers_in(digits: &[u8]) -> Option<u32>
    ensures is { result ≡ number_up_to 4 digits.now }
    ensures few { IfSome result (λ workers. workers ≤ 4) }
{
    if digits.len() > MOST_DIGITS {
        return None;
    }
    let number = number(digits)?;
    if number > MOST_WORKERS {
        return None;
    }
    Some(number as u32)
}

/// The batch of these names.
fn batch_with(workers: u32, words: &[String]) -> Option<Batch<'_>>
    requires { workers ≤ 4 }
    ensures is { option_map (λ it. (it.workers, list_map string_bytes it.names.now)) result ≡ batch_with workers (list_map string_bytes words.now) }
    ensures few { IfSome result (λ it. it.workers ≤ 4) }
{
    if are_names(words) {
        Some(Batch {
            workers,
            names: words,
        })
    } else {
        None
    }
}

/// The batch of a number of workers and these names.
fn batch_for<'a>(number: &[u8], words: &'a [String]) -> Option<Batch<'a>>
    ensures is { option_map (λ it. (it.workers, list_map string_bytes it.names.now)) result ≡ batch_for number.now (list_map string_bytes words.now) }
    ensures few { IfSome result (λ it. it.workers ≤ 4) }
{
    match workers_in(number) {
        Some(workers) => batch_with(workers, words),
        None => None,
    }
}

/// The batch of the words behind `--workers`.
fn behind_workers(words: &[String]) -> Option<Batch<'_>>
    ensures is { option_map (λ it. (it.workers, list_map string_bytes it.names.now)) result ≡ behind_workers (list_map string_bytes words.now) }
    ensures few { IfSome result (λ it. it.workers ≤ 4) }
{
    match words {
        [] => None,
        [number, words @ ..] => batch_for(number.as_bytes(), words),
    }
}

/// The batch of the words behind `batch`.
#[tactic(auto, unfolding(crate::specs::Words::behind_batch))]
fn behind_batch(words: &[String]) -> Option<Batch<'_>>
    ensures is { option_map (λ it. (it.workers, list_map string_bytes it.names.now)) result ≡ behind_batch (list_map string_bytes words.now) }
    ensures few { IfSome result (λ it. it.workers ≤ 4) }
{
    let [word, behind @ ..] = words else {
        return None;
    };
    if word.as_str() == "--workers" {
        return behind_workers(behind);
    }
    match word.as_bytes().strip_prefix(b"--workers=") {
        Some(number) => batch_for(number, behind),
        None => batch_with(1, words),
    }
}

/// The batch of all words.
#[tactic(auto, unfolding(crate::specs::Words::batch_of))]
fn batch_of(words: &[String]) -> Option<Batch<'_>>
    ensures is { option_map (λ it. (it.workers, list_map string_bytes it.names.now)) result ≡ batch_of (list_map string_bytes words.now) }
    ensures few { IfSome result (λ it. it.workers ≤ 4) }
{
    match words {
        [] => None,
        [command, words @ ..] => {
            if command.as_str() == "batch" {
                behind_batch(words)
            } else {
                None
            }
        }
    }
}

/// The names among the words of a batch; `None` where the words are no form. Takes no memory.
pub fn member_names(words: &[String]) -> Option<&[String]>
    ensures { option_map (λ names. list_map string_bytes names.now) result ≡ option_map (λ batch. batch.1) (batch_of (list_map string_bytes words.now)) }
{
    match batch_of(words) {
        Some(batch) => Some(batch.names),
        None => None,
    }
}

/// Whether members have these names in order.
fn are_named<R, D>(names: &[String], members: &[Member<R, D>]) -> bool
    ensures { result ≡ pointwise bytes_eq (list_map string_bytes names.now) (names_of members.now) }
{
    match (names, members) {
        ([], []) => true,
        ([name, names @ ..], [member, members @ ..]) => {
            name.as_bytes() == member.name.bytes() && are_named(names, members)
        }
        _ => false,
    }
}

/// How many workers the words ask for beside each of these members.
pub(crate) fn workers_for<R, D>(words: &[String], members: &[Member<R, D>]) -> Option<u32>
    ensures is { result ≡ workers_for (list_map string_bytes words.now) (names_of members.now) }
    ensures few { IfSome result (λ workers. workers ≤ 4) }
{
    match batch_of(words) {
        Some(batch) if are_named(batch.names, members) => Some(batch.workers),
        _ => None,
    }
}
