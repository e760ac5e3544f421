// Laws of namelist text (ISO/IEC 1539-1:2004, 10.10).
ghost use Rattle.fj_namelist.specs.Breaks.{MembersBreakWhereFull};
ghost use Rattle.fj_namelist.specs.GroupReadAgain.{GroupsAreReadAgain};
ghost use Rattle.fj_namelist.specs.Naming.{ElementsAreNamed};
ghost use Rattle.fj_namelist.specs.Understood.{GroupTextHasOneMeaning, GroupTextIsRead, GroupsNeedHeadings};

/// What is written of a group under DELIM='APOSTROPHE' or 'QUOTE' is read under the same modes as the values that were
/// written.
pub fn groups_are_read_again()
    ensures { GroupsAreReadAgain }
{}

/// But for a separator in column 81, a record of a member has at most 80 characters, unless it has a single value; with
/// the first value of the member's next record it would have more. No other records are such.
pub fn members_break_where_full()
    ensures { MembersBreakWhereFull }
{}

/// What stands in records by the grammar of 10.10.1 is read as its assignments: each constant so many times, null values
/// leave their elements as they were, and no record behind that of the slash is looked at.
pub fn group_text_is_read()
    ensures { GroupTextIsRead }
{}

/// By the grammar records have the assignments of one text at most, and end in one way.
pub fn group_text_has_one_meaning()
    ensures { GroupTextHasOneMeaning }
{}

/// The first text behind blank records and comments is the group's heading, else the condition is 22; where there is no
/// text the statement meets the end of the records.
pub fn groups_need_headings()
    ensures { GroupsNeedHeadings }
{}

/// A name is that of a member but for case, and a subscript that of an element, counted from 1; a scalar has none.
pub fn elements_are_named()
    ensures { ElementsAreNamed }
{}
