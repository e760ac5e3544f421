// Words that begin a statement here, and words of Fortran that don't.

use crate::specifiers::Statement;

/// What a word of the deck language begins.
#[derive(Clone, Copy)]
pub enum Keyword {
    /// INTEGER, LOGICAL or CHARACTER.
    Type(&'static str),
    Namelist,
    Call(Statement),
    End,
}

pub static KEYWORDS: [(&str, Keyword); 15] = [
    ("INTEGER", Keyword::Type("INTEGER")),
    ("LOGICAL", Keyword::Type("LOGICAL")),
    ("CHARACTER", Keyword::Type("CHARACTER")),
    ("NAMELIST", Keyword::Namelist),
    ("OPEN", Keyword::Call(Statement::Open)),
    ("CLOSE", Keyword::Call(Statement::Close)),
    ("READ", Keyword::Call(Statement::Read)),
    ("WRITE", Keyword::Call(Statement::Write)),
    ("WAIT", Keyword::Call(Statement::Wait)),
    ("BACKSPACE", Keyword::Call(Statement::Motion)),
    ("REWIND", Keyword::Call(Statement::Motion)),
    ("ENDFILE", Keyword::Call(Statement::Motion)),
    ("FLUSH", Keyword::Call(Statement::Motion)),
    ("INQUIRE", Keyword::Call(Statement::Inquire)),
    ("END", Keyword::End),
];

const STRAIGHT: &str = "a deck is a straight list of statements, without control";

const ALONE: &str = "a deck is one list of statements, without procedures or modules";

const TYPES: &str = "INTEGER, LOGICAL and CHARACTER are";

const PLAIN: &str = "a variable is a scalar or an array of a declared number of elements";

const ATTRIBUTE: &str = "the only attribute is ASYNCHRONOUS, in the declaration";

/// Words that begin a statement of Fortran and none here, and what is to be known instead.
pub static FOREIGN: [(&str, &str); 69] = [
    ("REAL", TYPES),
    ("DOUBLE", TYPES),
    ("DOUBLEPRECISION", TYPES),
    ("COMPLEX", TYPES),
    ("TYPE", TYPES),
    ("CLASS", TYPES),
    ("ENUM", TYPES),
    ("BYTE", TYPES),
    ("PROGRAM", "a deck begins with its declarations"),
    (
        "IMPLICIT",
        "every name is declared anyway: leave this line out",
    ),
    (
        "PRINT",
        "write WRITE(*,*) items or WRITE(*,'(format)') items",
    ),
    ("STOP", "a deck ends at END"),
    ("PAUSE", STRAIGHT),
    ("IF", STRAIGHT),
    ("THEN", STRAIGHT),
    ("ELSE", STRAIGHT),
    ("ELSEIF", STRAIGHT),
    ("ENDIF", STRAIGHT),
    ("DO", STRAIGHT),
    ("ENDDO", STRAIGHT),
    ("WHILE", STRAIGHT),
    ("SELECT", STRAIGHT),
    ("CASE", STRAIGHT),
    ("GO", STRAIGHT),
    ("GOTO", STRAIGHT),
    ("CONTINUE", STRAIGHT),
    ("CYCLE", STRAIGHT),
    ("EXIT", STRAIGHT),
    ("FORALL", STRAIGHT),
    ("WHERE", STRAIGHT),
    ("ASSOCIATE", STRAIGHT),
    ("BLOCK", STRAIGHT),
    ("CALL", ALONE),
    ("RETURN", ALONE),
    ("USE", ALONE),
    ("IMPORT", ALONE),
    ("CONTAINS", ALONE),
    ("MODULE", ALONE),
    ("SUBROUTINE", ALONE),
    ("FUNCTION", ALONE),
    ("INTERFACE", ALONE),
    ("PROCEDURE", ALONE),
    ("RECURSIVE", ALONE),
    ("PURE", ALONE),
    ("ELEMENTAL", ALONE),
    ("ENTRY", ALONE),
    ("EXTERNAL", ALONE),
    ("INTRINSIC", ALONE),
    ("ENDPROGRAM", "write END alone"),
    ("ENDSUBROUTINE", ALONE),
    ("ENDMODULE", ALONE),
    ("INCLUDE", "a deck is one text"),
    (
        "FORMAT",
        "put the format into READ or WRITE, as in WRITE(*,'(I5)') N",
    ),
    ("DATA", "write an assignment after the declarations"),
    ("PARAMETER", "write the value where it is wanted"),
    (
        "DIMENSION",
        "the number of elements follows the name, as in INTEGER A(3)",
    ),
    ("ALLOCATE", PLAIN),
    ("DEALLOCATE", PLAIN),
    ("ALLOCATABLE", PLAIN),
    ("POINTER", PLAIN),
    ("TARGET", PLAIN),
    ("NULLIFY", PLAIN),
    ("COMMON", PLAIN),
    ("EQUIVALENCE", PLAIN),
    ("SAVE", ATTRIBUTE),
    ("VOLATILE", ATTRIBUTE),
    ("ASYNCHRONOUS", ATTRIBUTE),
    ("OPTIONAL", ATTRIBUTE),
    ("INTENT", ATTRIBUTE),
];

/// What stands beside a word in a table.
pub fn look_up<T: Copy>(table: &[(&str, T)], word: &[u8]) -> Option<T> {
    for row in table {
        if word.eq_ignore_ascii_case(row.0.as_bytes()) {
            return Some(row.1);
        }
    }
    None
}
