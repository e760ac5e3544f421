// Values split off records (ISO/IEC 1539-1:2004, 10.9.1).
ghost use Rattle.std.specs.Prelude.{◌≡◌, ◌<◌, ◌≤◌, ◌↔◌, length, false, IfOk, None};
ghost use Rattle.fj_outside.specs.Faults.{Rose};
ghost use Rattle.fj_list.specs.Stream.{stream, skipped};
ghost use Rattle.fj_list.specs.ListInput.{condition_of, delimited, value_at, value_start, split, supplied};
ghost use Rattle.fj_list.specs.Scan.{IsSound, ahead, constant_of, Reaches, Closes, IsSplit};

use crate::constant::Form;
use crate::records::{Records, next_line};
use crate::scan::{Scan, Token, is_separator};
use fj_outside::Stop;
use fj_value::Condition;

/// Goes on to the next record. Where there is none it answers the condition in which the records end.
pub fn advance<R: Records>(records: &mut R, scan: &mut Scan) -> Result<Option<Condition>, Stop>
    ensures sound { IsSound scan.new }
    ensures count { scan.new.count ≡ scan.old.count }
    ensures form { scan.new.form ≡ scan.old.form }
    ensures characters { scan.new.characters ≡ scan.old.characters }
    ensures telling { R.tells records.old ↔ R.tells records.new }
    ensures contents { R.tells records.old → IfOk result (λ end. Reaches end
        (stream (R.to_come records.old))
        (ahead scan.new (R.to_come records.new))
        (condition_of (R.ending records.old)) (R.to_come records.new)) }
    ensures same { R.tells records.old → IfOk result (λ _. R.ending records.new ≡ R.ending records.old) }
    ensures fewer { result ≡ Ok None → R.bound records.new < R.bound records.old }
    ensures source { R.source records.new ≡ R.source records.old }
    ensures later { R.count records.old ≤ R.count records.new }
    ensures failed { result ≡ Err Stop.Failed → Rose (R.count records.old) (R.count records.new) }
{
    scan.at = 0;
    scan.start = 0;
    scan.end = 0;
    next_line(records, &mut scan.line)
}

/// Goes on to the next character that is no blank, in later records too.
pub fn skip<R: Records>(records: &mut R, scan: &mut Scan) -> Result<Option<Condition>, Stop>
    requires { IsSound scan.old }
    ensures sound { IsSound scan.new }
    ensures there { result ≡ Ok None → scan.new.at < length scan.new.line }
    ensures telling { R.tells records.old ↔ R.tells records.new }
    ensures contents { R.tells records.old → IfOk result (λ end. Reaches end
        (skipped (ahead scan.old (R.to_come records.old)))
        (ahead scan.new (R.to_come records.new))
        (condition_of (R.ending records.old)) (R.to_come records.new)) }
    ensures same { R.tells records.old → IfOk result (λ _. R.ending records.new ≡ R.ending records.old) }
    ensures source { R.source records.new ≡ R.source records.old }
    ensures later { R.count records.old ≤ R.count records.new }
    ensures failed { result ≡ Err Stop.Failed → Rose (R.count records.old) (R.count records.new) }
{
    'lines: loop {
        scan.pass_blanks();
        if scan.at < scan.line.len() {
            return Ok(None);
        }
        let end = advance(records, scan)?;
        if end.is_some() {
            return Ok(end);
        }
    }
}

/// Goes on to the first character of the next value, or of what is in its place.
fn reach_value<R: Records>(
    records: &mut R,
    scan: &mut Scan,
    comma: bool,
    first: bool,
) -> Result<Option<Condition>, Stop>
    requires { IsSound scan.old }
    ensures sound { IsSound scan.new }
    ensures there { result ≡ Ok None → scan.new.at < length scan.new.line }
    ensures telling { R.tells records.old ↔ R.tells records.new }
    ensures contents { R.tells records.old → IfOk result (λ end. Reaches end
        (value_start comma first (ahead scan.old (R.to_come records.old)))
        (ahead scan.new (R.to_come records.new))
        (condition_of (R.ending records.old)) (R.to_come records.new)) }
    ensures same { R.tells records.old → IfOk result (λ _. R.ending records.new ≡ R.ending records.old) }
    ensures source { R.source records.new ≡ R.source records.old }
    ensures later { R.count records.old ≤ R.count records.new }
    ensures failed { result ≡ Err Stop.Failed → Rose (R.count records.old) (R.count records.new) }
{
    let end = skip(records, scan)?;
    if first || end.is_some() {
        return Ok(end);
    }
    if is_separator(comma, scan.line.bytes()[scan.at]) {
        scan.at += 1;
    }
    skip(records, scan)
}

/// Reads a delimited constant behind its opening mark.
fn read_delimited<R: Records>(
    records: &mut R,
    scan: &mut Scan,
    mark: u8,
) -> Result<Option<Condition>, Stop>
    requires { IsSound scan.old }
    ensures sound { IsSound scan.new }
    ensures count { scan.new.count ≡ scan.old.count }
    ensures form { scan.new.form ≡ scan.old.form }
    ensures telling { R.tells records.old ↔ R.tells records.new }
    ensures contents { R.tells records.old → IfOk result (λ end. Closes end
        (delimited mark false (ahead scan.old (R.to_come records.old)))
        scan.new.characters (ahead scan.new (R.to_come records.new))
        (condition_of (R.ending records.old)) (R.to_come records.new)) }
    ensures same { R.tells records.old → IfOk result (λ _. R.ending records.new ≡ R.ending records.old) }
    ensures source { R.source records.new ≡ R.source records.old }
    ensures later { R.count records.old ≤ R.count records.new }
    ensures failed { result ≡ Err Stop.Failed → Rose (R.count records.old) (R.count records.new) }
{
    scan.characters.clear();
    'lines: loop {
        if scan.read_piece(mark)? {
            return Ok(None);
        }
        let end = advance(records, scan)?;
        if end.is_some() {
            return Ok(end);
        }
    }
}

/// Splits off a value from its first character on.
pub fn split_value<R: Records>(
    records: &mut R,
    scan: &mut Scan,
    comma: bool,
) -> Result<Option<Condition>, Stop>
    requires sound { IsSound scan.old }
    requires there { scan.old.at < length scan.old.line }
    ensures sound { IsSound scan.new }
    ensures telling { R.tells records.old ↔ R.tells records.new }
    ensures contents { R.tells records.old → IfOk result (λ end. IsSplit end
        (value_at comma (condition_of (R.ending records.old)) (ahead scan.old (R.to_come records.old)))
        scan.new (R.to_come records.new)) }
    ensures same { R.tells records.old → IfOk result (λ _. R.ending records.new ≡ R.ending records.old) }
    ensures source { R.source records.new ≡ R.source records.old }
    ensures later { R.count records.old ≤ R.count records.new }
    ensures failed { result ≡ Err Stop.Failed → Rose (R.count records.old) (R.count records.new) }
{
    match scan.read_value(comma) {
        Token::Constant => Ok(None),
        Token::Stopped(condition) => Ok(Some(condition)),
        Token::Opened(mark) => {
            scan.form = Form::Delimited;
            if let Some(condition) = read_delimited(records, scan, mark)? {
                return Ok(Some(condition));
            }
            if !scan.has_ended(comma) {
                return Ok(Some(Condition::NO_VALUE));
            }
            Ok(None)
        }
    }
}

/// Sees to it that there is a constant for the next item. Otherwise it answers the condition in which the statement
/// ends.
pub fn supply<R: Records>(
    records: &mut R,
    scan: &mut Scan,
    comma: bool,
    first: bool,
) -> Result<Option<Condition>, Stop>
    requires { IsSound scan.old }
    ensures sound { IsSound scan.new }
    ensures telling { R.tells records.old ↔ R.tells records.new }
    ensures contents { R.tells records.old →
        let ahead_old = ahead scan.old (R.to_come records.old) in IfOk result (λ end. IsSplit end
        (supplied scan.old.count scan.old.form (constant_of scan.old.form scan.old) ahead_old
        (split comma (condition_of (R.ending records.old)) first ahead_old)) scan.new (R.to_come records.new)) }
    ensures same { R.tells records.old → IfOk result (λ _. R.ending records.new ≡ R.ending records.old) }
    ensures source { R.source records.new ≡ R.source records.old }
    ensures later { R.count records.old ≤ R.count records.new }
    ensures failed { result ≡ Err Stop.Failed → Rose (R.count records.old) (R.count records.new) }
{
    if scan.count > 0 {
        return Ok(None);
    }
    let end = reach_value(records, scan, comma, first)?;
    if end.is_some() {
        return Ok(end);
    }
    split_value(records, scan, comma)
}
