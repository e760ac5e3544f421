// The conditions in words, as the table of docs/DECKS.md has them.

/// Each condition with what it says.
static CONDITIONS: [(i32, &str); 34] = [
    (-1, "the end of the file"),
    (-2, "the end of the record"),
    (
        1,
        "READ, WRITE, BACKSPACE, REWIND, ENDFILE or FLUSH on a unit that is not connected",
    ),
    (
        2,
        "ASYNCHRONOUS='YES' on a unit that was not opened with it, or on *",
    ),
    (
        3,
        "OPEN whose specifiers do not go together: direct access without RECL= or with POSITION=, stream access with RECL=, \
         RECL= of 0 or above its limit, FILE= with SCRATCH, BLANK=, DELIM=, PAD=, DECIMAL= or SIGN= with an unformatted form; \
         or whose unit is that of a place, is not connected, and is not 0 to 2,147,483,647",
    ),
    (4, "CLOSE that keeps a scratch file"),
    (5, "OPEN with STATUS='OLD', and there is no such file"),
    (6, "OPEN with STATUS='NEW', and there is such a file"),
    (7, "OPEN of a file that is connected to another unit"),
    (
        8,
        "OPEN of the connected file with another value of ACCESS=, FORM=, RECL=, ACTION= or ASYNCHRONOUS=, with STATUS= other \
         than OLD, POSITION= other than ASIS, or a mode of an unformatted connection",
    ),
    (9, "OPEN where 16 units are connected"),
    (
        10,
        "READ with ACTION='WRITE', WRITE or ENDFILE with ACTION='READ'",
    ),
    (
        11,
        "items are left and the format has no data edit descriptor for them",
    ),
    (12, "the descriptor is not for the item's type"),
    (13, "the characters are not a value of the type"),
    (14, "the value is out of the kind's range"),
    (15, "a record is longer than its limit"),
    (
        16,
        "a formatted transfer on an unformatted connection, or the other way round; REC= without direct access, direct access \
         without REC=; POS= without stream access; ADVANCE=, * or NML= with direct access",
    ),
    (17, "a direct record that does not exist"),
    (18, "a broken frame of an unformatted record"),
    (19, "more bytes wanted than the unformatted record has"),
    (
        20,
        "READ, WRITE or ENDFILE of sequential access behind the endfile record",
    ),
    (21, "REC= below 1; POS= below 1 or above the length plus 1"),
    (22, "namelist input without a group name"),
    (
        23,
        "namelist input with a name or a subscript that is not in the group",
    ),
    (24, "namelist input with any other text that is no group"),
    (25, "a file would pass its limit"),
    (
        26,
        "the formatted output of a statement would pass its limit",
    ),
    (
        27,
        "a file that is opened has more bytes than the limit of a file",
    ),
    (
        28,
        "BACKSPACE, REWIND or ENDFILE of direct access; BACKSPACE of an unformatted stream",
    ),
    (29, "a character string edit descriptor on input"),
    (30, "a record too short for a descriptor under PAD='NO'"),
    (
        31,
        "WRITE that makes more records than its internal file has",
    ),
    (
        32,
        "READ of an internal file of which an element holds a line feed or a carriage return",
    ),
];

/// A condition in words.
pub fn condition_words(code: i32) -> &'static str {
    for (number, words) in &CONDITIONS {
        if *number == code {
            return *words;
        }
    }
    "a condition"
}
