// The words that name modes: one table for each kind of words (ISO/IEC 1539-1:2004, 9.4.5 and 9.4.6).
ghost use Rattle.std.specs.Prelude.{◌≡◌, map};
ghost use Rattle.std.specs.Str.{str_eq_ignore_ascii_case};
ghost use Rattle.fj_modes.specs.ModeWords.{mode_of};

use crate::specifiers::{Access, Action, FileStatus, Start};
use fj_value::Delim;

fn is_same_word(word: &str, text: &[u8]) -> bool
    ensures { result ≡ str_eq_ignore_ascii_case word.now text.now }
{
    word.as_bytes().eq_ignore_ascii_case(text)
}

/// The mode of the word that a text is, in either case: what the word stands for in a table.
pub fn look_up<T: Copy>(words: &[(&str, T)], text: &[u8]) -> Option<T>
    ensures { result ≡ mode_of (map (λ word. (word.0.now, word.1)) words.now) text.now }
{
    for word in words {
        if is_same_word(word.0, text) {
            return Some(word.1);
        }
    }
    None
}

/// A kind of words, each of which names a mode.
pub trait WordKind {
    ghost use Rattle.std.specs.Prelude.{◌≡◌, List, ℕ};
    ghost use Rattle.fj_modes.specs.ModeWords.{Table, mode_of, AreReadBack};

    type Mode: Copy;

    /// The words, and the mode of each.
    ghost words: { Table Self.Mode };

    /// The word by which a mode is told.
    ghost word_of: { Self.Mode → List ℕ };

    /// The mode that a text names, in either case.
    fn mode_of(text: &[u8]) -> Option<Self::Mode>
        ensures { result ≡ mode_of words text.now };

    /// The word of a mode, in upper case.
    fn word(mode: Self::Mode) -> &'static str
        ensures { result.now ≡ word_of mode };

    ghost are_read_back: { AreReadBack words word_of };
}

impl WordKind for FileStatus {
    ghost use Rattle.std.specs.Prelude.{refl};
    ghost use Rattle.fj_modes.specs.declared.specifiers.FileStatus.TheVariants.{Old, New, Scratch, Replace, Unknown};
    ghost use Rattle.fj_modes.specs.ModeWords.{status_words, status_word};

    type Mode = FileStatus;

    ghost words = { status_words };

    ghost word_of = { status_word };

    ghost are_read_back = { elim [ Old ↦ refl | New ↦ refl | Scratch ↦ refl | Replace ↦ refl | Unknown ↦ refl ] };

    fn mode_of(text: &[u8]) -> Option<FileStatus> {
        look_up(
            &[
                ("OLD", FileStatus::Old),
                ("NEW", FileStatus::New),
                ("SCRATCH", FileStatus::Scratch),
                ("REPLACE", FileStatus::Replace),
                ("UNKNOWN", FileStatus::Unknown),
            ],
            text,
        )
    }

    fn word(mode: FileStatus) -> &'static str {
        match mode {
            FileStatus::Old => "OLD",
            FileStatus::New => "NEW",
            FileStatus::Scratch => "SCRATCH",
            FileStatus::Replace => "REPLACE",
            FileStatus::Unknown => "UNKNOWN",
        }
    }
}

impl WordKind for Access {
    ghost use Rattle.std.specs.Prelude.{refl};
    ghost use Rattle.fj_modes.specs.declared.specifiers.Access.TheVariants.{Sequential, Direct, Stream};
    ghost use Rattle.fj_modes.specs.ModeWords.{access_words, access_word};

    type Mode = Access;

    ghost words = { access_words };

    ghost word_of = { access_word };

    ghost are_read_back = { elim [ Sequential ↦ refl | Direct ↦ refl | Stream ↦ refl ] };

    fn mode_of(text: &[u8]) -> Option<Access> {
        look_up(
            &[
                ("SEQUENTIAL", Access::Sequential),
                ("DIRECT", Access::Direct),
                ("STREAM", Access::Stream),
            ],
            text,
        )
    }

    fn word(mode: Access) -> &'static str {
        match mode {
            Access::Sequential => "SEQUENTIAL",
            Access::Direct => "DIRECT",
            Access::Stream => "STREAM",
        }
    }
}

impl WordKind for Start {
    ghost use Rattle.std.specs.Prelude.{refl};
    ghost use Rattle.fj_modes.specs.declared.specifiers.Start.TheVariants.{AsIs, Rewind, Append};
    ghost use Rattle.fj_modes.specs.ModeWords.{position_words, position_word};

    type Mode = Start;

    ghost words = { position_words };

    ghost word_of = { position_word };

    ghost are_read_back = { elim [ AsIs ↦ refl | Rewind ↦ refl | Append ↦ refl ] };

    fn mode_of(text: &[u8]) -> Option<Start> {
        look_up(
            &[
                ("ASIS", Start::AsIs),
                ("REWIND", Start::Rewind),
                ("APPEND", Start::Append),
            ],
            text,
        )
    }

    fn word(mode: Start) -> &'static str {
        match mode {
            Start::AsIs => "ASIS",
            Start::Rewind => "REWIND",
            Start::Append => "APPEND",
        }
    }
}

impl WordKind for Action {
    ghost use Rattle.std.specs.Prelude.{refl};
    ghost use Rattle.fj_modes.specs.declared.specifiers.Action.TheVariants.{Read, Write, ReadWrite};
    ghost use Rattle.fj_modes.specs.ModeWords.{action_words, action_word};

    type Mode = Action;

    ghost words = { action_words };

    ghost word_of = { action_word };

    ghost are_read_back = { elim [ Read ↦ refl | Write ↦ refl | ReadWrite ↦ refl ] };

    fn mode_of(text: &[u8]) -> Option<Action> {
        look_up(
            &[
                ("READ", Action::Read),
                ("WRITE", Action::Write),
                ("READWRITE", Action::ReadWrite),
            ],
            text,
        )
    }

    fn word(mode: Action) -> &'static str {
        match mode {
            Action::Read => "READ",
            Action::Write => "WRITE",
            Action::ReadWrite => "READWRITE",
        }
    }
}

impl WordKind for Delim {
    ghost use Rattle.std.specs.Prelude.{refl};
    ghost use Rattle.fj_value.specs.declared.edit.Delim.TheVariants.{Apostrophe, Quote, Plain};
    ghost use Rattle.fj_modes.specs.ModeWords.{delim_words, delim_word};

    type Mode = Delim;

    ghost words = { delim_words };

    ghost word_of = { delim_word };

    ghost are_read_back = { elim [ Apostrophe ↦ refl | Quote ↦ refl | Plain ↦ refl ] };

    fn mode_of(text: &[u8]) -> Option<Delim> {
        look_up(
            &[
                ("APOSTROPHE", Delim::Apostrophe),
                ("QUOTE", Delim::Quote),
                ("NONE", Delim::Plain),
            ],
            text,
        )
    }

    fn word(mode: Delim) -> &'static str {
        match mode {
            Delim::Apostrophe => "APOSTROPHE",
            Delim::Quote => "QUOTE",
            Delim::Plain => "NONE",
        }
    }
}

/// STATUS= of CLOSE (9.4.6.1): whether the file is kept.
pub struct Disposition;

impl WordKind for Disposition {
    ghost use Rattle.std.specs.Prelude.{refl, true, false};
    ghost use Rattle.fj_modes.specs.ModeWords.{disposition_words, disposition_word};

    type Mode = bool;

    ghost words = { disposition_words };

    ghost word_of = { disposition_word };

    ghost are_read_back = { elim [ true ↦ refl | false ↦ refl ] };

    fn mode_of(text: &[u8]) -> Option<bool> {
        look_up(&[("KEEP", true), ("DELETE", false)], text)
    }

    fn word(mode: bool) -> &'static str {
        match mode {
            true => "KEEP",
            false => "DELETE",
        }
    }
}

/// FORM= (9.4.5.9): whether records are formatted.
pub struct Form;

impl WordKind for Form {
    ghost use Rattle.std.specs.Prelude.{refl, true, false};
    ghost use Rattle.fj_modes.specs.ModeWords.{form_words, form_word};

    type Mode = bool;

    ghost words = { form_words };

    ghost word_of = { form_word };

    ghost are_read_back = { elim [ true ↦ refl | false ↦ refl ] };

    fn mode_of(text: &[u8]) -> Option<bool> {
        look_up(&[("FORMATTED", true), ("UNFORMATTED", false)], text)
    }

    fn word(mode: bool) -> &'static str {
        match mode {
            true => "FORMATTED",
            false => "UNFORMATTED",
        }
    }
}

/// BLANK= (9.4.5.4): whether blanks are zeros.
pub struct Blank;

impl WordKind for Blank {
    ghost use Rattle.std.specs.Prelude.{refl, true, false};
    ghost use Rattle.fj_modes.specs.ModeWords.{blank_words, blank_word};

    type Mode = bool;

    ghost words = { blank_words };

    ghost word_of = { blank_word };

    ghost are_read_back = { elim [ false ↦ refl | true ↦ refl ] };

    fn mode_of(text: &[u8]) -> Option<bool> {
        look_up(&[("NULL", false), ("ZERO", true)], text)
    }

    fn word(mode: bool) -> &'static str {
        match mode {
            false => "NULL",
            true => "ZERO",
        }
    }
}

/// DECIMAL= (9.4.5.5): whether the decimal symbol is a comma.
pub struct Decimal;

impl WordKind for Decimal {
    ghost use Rattle.std.specs.Prelude.{refl, true, false};
    ghost use Rattle.fj_modes.specs.ModeWords.{decimal_words, decimal_word};

    type Mode = bool;

    ghost words = { decimal_words };

    ghost word_of = { decimal_word };

    ghost are_read_back = { elim [ true ↦ refl | false ↦ refl ] };

    fn mode_of(text: &[u8]) -> Option<bool> {
        look_up(&[("COMMA", true), ("POINT", false)], text)
    }

    fn word(mode: bool) -> &'static str {
        match mode {
            true => "COMMA",
            false => "POINT",
        }
    }
}

/// SIGN= (9.4.5.14): whether a plus is written.
pub struct Sign;

impl WordKind for Sign {
    ghost use Rattle.std.specs.Prelude.{refl, true, false};
    ghost use Rattle.fj_modes.specs.ModeWords.{sign_words, sign_word};

    type Mode = bool;

    ghost words = { sign_words };

    ghost word_of = { sign_word };

    ghost are_read_back = { elim [ true ↦ refl | false ↦ refl ] };

    fn mode_of(text: &[u8]) -> Option<bool> {
        look_up(
            &[
                ("PLUS", true),
                ("SUPPRESS", false),
                ("PROCESSOR_DEFINED", false),
            ],
            text,
        )
    }

    fn word(mode: bool) -> &'static str {
        match mode {
            true => "PLUS",
            false => "SUPPRESS",
        }
    }
}

/// PAD=, ASYNCHRONOUS= and ADVANCE= (9.4.5.10, 9.4.5.3, 9.5.1.3): yes or no.
pub struct Answer;

impl WordKind for Answer {
    ghost use Rattle.std.specs.Prelude.{refl, true, false};
    ghost use Rattle.fj_modes.specs.ModeWords.{answer_words, answer_word};

    type Mode = bool;

    ghost words = { answer_words };

    ghost word_of = { answer_word };

    ghost are_read_back = { elim [ true ↦ refl | false ↦ refl ] };

    fn mode_of(text: &[u8]) -> Option<bool> {
        look_up(&[("YES", true), ("NO", false)], text)
    }

    fn word(mode: bool) -> &'static str {
        match mode {
            true => "YES",
            false => "NO",
        }
    }
}
