// The words behind the program's name.
ghost use Rattle.std.specs.Prelude.{◌≡◌, ◌∷◌, IfOk, string_bytes};
ghost use Rattle.std.specs.Prelude.{map as list_map};
ghost use Rattle.fj_report.specs.Words.{form_of, run_form, alone_form, check_form, gen_form};

use crate::command::{alone_command, check_command, gen_command, run_command};
use crate::given::{given, has_flag, number_behind};
use std::alloc::{AllocError, Global};

/// What the words ask for.
#[derive(Clone, Copy, PartialEq, Eq)]
pub enum Form {
    /// To carry out the deck with workers.
    Run { workers: u32, trace: bool },
    /// To carry it out on one thread.
    Alone { trace: bool },
    /// To read the deck.
    Check,
    /// To make a deck, and to carry it out or to print it.
    Gen { seed: u32, count: u32, text: bool },
    /// Nothing: they are none of the forms.
    Wrong,
}

/// The most workers that words ask for.
const MOST_WORKERS: u32 = 64;
/// The greatest seed.
const GREATEST_SEED: u32 = 2_147_483_647;
/// The most transfers of a deck that is made.
const MOST_TRANSFERS: u32 = 20_000;

/// The form of the words behind `run`.
fn run_form(alloc: Global, words: &[String]) -> Result<Form, AllocError>
    ensures { IfOk result (λ form. form ≡ run_form (list_map string_bytes words.now)) }
{
    let Some(given) = given(run_command(alloc)?, words)? else {
        return Ok(Form::Wrong);
    };
    let Some(workers) = number_behind(&given, "workers", MOST_WORKERS) else {
        return Ok(Form::Wrong);
    };
    let trace = has_flag(&given, "trace");
    Ok(Form::Run { workers, trace })
}

/// The form of the words behind `alone`.
fn alone_form(alloc: Global, words: &[String]) -> Result<Form, AllocError>
    ensures { IfOk result (λ form. form ≡ alone_form (list_map string_bytes words.now)) }
{
    let Some(given) = given(alone_command(alloc)?, words)? else {
        return Ok(Form::Wrong);
    };
    let trace = has_flag(&given, "trace");
    Ok(Form::Alone { trace })
}

/// The form of the words behind `check`.
fn check_form(alloc: Global, words: &[String]) -> Result<Form, AllocError>
    ensures { IfOk result (λ form. form ≡ check_form (list_map string_bytes words.now)) }
{
    match given(check_command(alloc), words)? {
        Some(_) => Ok(Form::Check),
        None => Ok(Form::Wrong),
    }
}

/// The form of the words behind `gen`.
fn gen_form(alloc: Global, words: &[String]) -> Result<Form, AllocError>
    ensures { IfOk result (λ form. form ≡ gen_form (list_map string_bytes words.now)) }
{
    let Some(given) = given(gen_command(alloc)?, words)? else {
        return Ok(Form::Wrong);
    };
    let Some(seed) = number_behind(&given, "seed", GREATEST_SEED) else {
        return Ok(Form::Wrong);
    };
    let Some(count) = number_behind(&given, "count", MOST_TRANSFERS) else {
        return Ok(Form::Wrong);
    };
    let text = has_flag(&given, "text");
    Ok(Form::Gen { seed, count, text })
}

/// The form of the words where the first names a command.
fn form_behind(alloc: Global, name: &str, words: &[String]) -> Result<Form, AllocError>
    ensures { IfOk result (λ form. form ≡ form_of (name.now ∷ list_map string_bytes words.now)) }
{
    if name == "run" {
        run_form(alloc, words)
    } else if name == "alone" {
        alone_form(alloc, words)
    } else if name == "check" {
        check_form(alloc, words)
    } else if name == "gen" {
        gen_form(alloc, words)
    } else {
        Ok(Form::Wrong)
    }
}

/// The form of the words: the first names a command, which takes the others as `clap` reads them.
#[tactic(auto, unfolding(crate::specs::Words::form_of))]
pub fn read_words(alloc: Global, words: &[String]) -> Result<Form, AllocError>
    ensures { IfOk result (λ form. form ≡ form_of (list_map string_bytes words.now)) }
{
    match words {
        [] => Ok(Form::Wrong),
        [name, words @ ..] => form_behind(alloc, name.as_str(), words),
    }
}
