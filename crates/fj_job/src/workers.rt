// How many workers a deck can use.
ghost use Rattle.std.specs.Prelude.{◌≡◌, if◌then◌else◌};
ghost use Rattle.std.specs.List.{list_any};
ghost use Rattle.fj_meaning.specs.Reaching.{is_later};

use fj_statement::{Lined, Statement};

/// Whether a statement can leave a transfer pending.
fn is_later(statement: &Statement) -> bool
    ensures { result ≡ is_later statement.now }
{
    match statement {
        Statement::Transfer(transfer) => transfer.asynchronous.unwrap_or(false),
        _ => false,
    }
}

/// Whether a statement of these can leave a transfer pending.
fn has_later(statements: &[Lined]) -> bool
    ensures { result ≡ list_any (λ lined. is_later lined.what) statements.now }
{
    statements.iter().any(|lined| is_later(&lined.what))
}

/// As many as are asked for; none where no statement can leave a transfer pending, since the thread that carries out the deck then
/// performs each job itself.
pub fn workers_for(statements: &[Lined], workers: u32) -> u32
    ensures { result ≡ (if list_any (λ lined. is_later lined.what) statements.now then workers else 0) }
{
    if has_later(statements) { workers } else { 0 }
}
