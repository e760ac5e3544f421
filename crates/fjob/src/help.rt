// The version, and the page for words that are no form.

/// The version of the program.
pub const VERSION: &str = "0.2.0";

/// What each word does.
pub const PAGE: &str = "\
fjob carries out decks: lists of typed variables and input/output statements of Fortran 2003. A deck comes from standard
input and its report goes to standard output; its files are those of the folder that fjob runs in.

    fjob alone [--trace]               carry out the deck on one thread
    fjob run [--workers N] [--trace]   the same with N workers beside, 0 to 64, without --workers 4
    fjob poll [--workers N]            the same, but that INQUIRE answers PENDING= by what the workers have done by then;
                                       a line tells each such look: the statement's line, unit, answer, jobs done
    fjob check                         read the deck, and carry nothing out
    fjob gen --seed N --count M [--text]
                                       make a deck of M transfers, 0 to 20000, from the seed N, 0 to 2147483647, and carry
                                       it out where no file is; with --text print it
    fjob batch [--workers N] NAME..    carry out the decks NAME.deck of the folder, 1 to 64, each with N workers beside, 0 to 4,
                                       without --workers 1; each has the files of the folder that begin with NAME- for its own

    --trace   print a line for each transfer that is told: the statement's line, unit, identifier, condition

Options stand in any order, as --workers 4 or --workers=4; those of batch stand before the names. With other words the usage
line is printed, and nothing is read or touched. fjob --version says the version here too.

Exit status: 0 the deck ended; 2 error stop, by a condition that no IOSTAT= caught; 3 the deck did what a program may not;
4 the text is no deck; 5 the words are no form; 6 standard input could not be read; 7 standard output could not be written;
8 a file could not be opened, read, written or removed; 9 memory was refused.

    echo \"END\" | fjob alone           a first deck

The deck language is in docs/DECKS.md, and all else begins in README.md.
";

/// Whether a word asks for the page.
pub fn is_help(word: &str) -> bool {
    matches!(word, "help" | "--help" | "-h")
}
