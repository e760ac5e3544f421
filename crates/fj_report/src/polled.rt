// The words for a run in which PENDING= is answered by what workers have done.
ghost use Rattle.std.specs.Prelude.{◌≡◌, ◌∷◌, IfOk, string_bytes};
ghost use Rattle.std.specs.Prelude.{map as list_map};
ghost use Rattle.fj_report.specs.Words.{polled, polled_by};

use crate::command::poll_command;
use crate::given::{given, number_behind};
use std::alloc::{AllocError, Global};

/// The most workers that words ask for.
const MOST_WORKERS: u32 = 64;

/// The workers that the words behind `poll` ask for.
fn polled(alloc: Global, words: &[String]) -> Result<Option<u32>, AllocError>
    ensures { IfOk result (λ workers. workers ≡ polled (list_map string_bytes words.now)) }
{
    match given(poll_command(alloc)?, words)? {
        Some(given) => Ok(number_behind(&given, "workers", MOST_WORKERS)),
        None => Ok(None),
    }
}

/// How many workers the words ask for, where they are `poll` or `poll --workers N`, with N from 0 to 64; four where they say nothing. None where they are not.
#[tactic(auto, unfolding(crate::specs::Words::polled_by))]
pub fn read_poll(alloc: Global, words: &[String]) -> Result<Option<u32>, AllocError>
    ensures { IfOk result (λ workers. workers ≡ polled_by (list_map string_bytes words.now)) }
{
    match words {
        [] => Ok(None),
        [name, words @ ..] => {
            if name.as_str() == "poll" {
                polled(alloc, words)
            } else {
                Ok(None)
            }
        }
    }
}
