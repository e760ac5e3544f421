// The items of an output that are still to be written.
ghost use Rattle.std.specs.Prelude.{◌≡◌, ◌≤◌, ◌∷◌, ◌++◌, [], length, take, drop, nat_lt, IsTrue, IfSome, IfNone};
ghost use Rattle.fj_moved.specs.Items.{in_cells, kind_ahead, values_ahead, of_kind, in_runs, in_runs_from, items_left, values_of, with_next};

use fj_value::{Cell, Kind, Value};

/// A value that is written, with its kind.
#[derive(Clone, Copy)]
pub struct Item<'a> {
    pub kind: Kind,
    pub value: &'a Value,
}

/// One value, or several.
#[derive(Clone, Copy)]
pub enum Values<'a> {
    One(&'a Value),
    Many(&'a [Value]),
}

/// Values of one kind.
#[derive(Clone, Copy)]
pub struct Run<'a> {
    pub kind: Kind,
    pub values: Values<'a>,
}

/// The items of an output that are left, in their order (ISO/IEC 1539-1:2004, 9.5.2). They are borrowed.
#[derive(Clone, Copy)]
pub enum OutputItems<'a> {
    /// The values of a row, each with one item.
    Row {
        kind: Kind,
        values: &'a [Value],
    },
    /// Cells, the number of the cell of each item, and how many of these numbers were taken.
    Cells {
        cells: &'a [Cell],
        order: &'a [u32],
        at: usize,
    },
    /// Runs of values, the run at hand, and how many of its values were taken.
    Runs {
        runs: &'a [Run<'a>],
        run: usize,
        at: usize,
    },
}

/// The next item of a row.
#[inline]
fn next_of_row<'a>(kind: Kind, values: &mut &'a [Value]) -> Option<Item<'a>>
    ensures items { with_next result (of_kind kind values.new.now) ≡ of_kind kind values.old.now }
    ensures none { IfNone result (of_kind kind values.new.now ≡ []) }
{
    let value = values.first()?;
    *values = &values[1..];
    Some(Item { kind, value })
}

/// Whether a number from a place on is that of a cell.
fn is_cell_left(cells: &[Cell], order: &[u32], from: usize) -> bool
    ensures { result ≡ nat_lt 0 (length (in_cells cells.now (drop from order.now))) }
{
    let mut at = from;
    while at < order.len() {
        if (order[at] as usize) < cells.len() {
            return true;
        }
        at += 1;
    }
    false
}

/// Whether a value is left.
fn is_value_left(runs: &[Run], run: usize, at: usize) -> bool
    ensures { result ≡ nat_lt 0 (length (in_runs_from at (drop run runs.now))) }
{
    let mut run = run;
    let mut at = at;
    next_value(runs, &mut run, &mut at).is_some()
}

/// The next item of cells.
fn next_cell<'a>(cells: &'a [Cell], order: &[u32], at: &mut usize) -> Option<Item<'a>>
    ensures items { with_next result (in_cells cells.now (drop at.new order.now)) ≡ in_cells cells.now (drop at.old order.now) }
    ensures none { IfNone result (in_cells cells.now (drop at.new order.now) ≡ []) }
{
    while *at < order.len() {
        let number = order[*at];
        *at += 1;
        if let Some(cell) = cells.get(number as usize) {
            return Some(Item {
                kind: cell.kind,
                value: &cell.value,
            });
        }
    }
    None
}

/// The next of several values.
fn next_of_many<'a>(values: &'a [Value], at: &mut usize) -> Option<&'a Value>
    ensures some { IfSome result (λ value. drop at.old values.now ≡ value.now ∷ drop at.new values.now) }
    ensures none { IfNone result (drop at.old values.now ≡ []) }
{
    if *at >= values.len() {
        return None;
    }
    let value = &values[*at];
    *at += 1;
    Some(value)
}

/// The next of some values.
fn next_of<'a>(values: Values<'a>, at: &mut usize) -> Option<&'a Value>
    ensures some { IfSome result (λ value. drop at.old (values_of values.entry) ≡ value.now ∷ drop at.new (values_of values.entry)) }
    ensures none { IfNone result (drop at.old (values_of values.entry) ≡ []) }
{
    match values {
        Values::Many(values) => next_of_many(values, at),
        Values::One(value) => {
            if *at > 0 {
                return None;
            }
            *at = 1;
            Some(value)
        }
    }
}

/// The next item of runs.
fn next_value<'a>(runs: &[Run<'a>], run: &mut usize, at: &mut usize) -> Option<Item<'a>>
    ensures items { with_next result (in_runs_from at.new (drop run.new runs.now)) ≡ in_runs_from at.old (drop run.old runs.now) }
    ensures none { IfNone result (in_runs_from at.new (drop run.new runs.now) ≡ []) }
{
    while *run < runs.len() {
        let Run { kind, values } = runs[*run];
        if let Some(value) = next_of(values, at) {
            return Some(Item { kind, value });
        }
        *run += 1;
        *at = 0;
    }
    None
}

impl<'a> OutputItems<'a> {
    /// The items of cells, by the number of the cell of each.
    pub fn of_cells(cells: &'a [Cell], order: &'a [u32]) -> OutputItems<'a>
        ensures { items_left result ≡ in_cells cells.entry.now order.entry.now }
    {
        OutputItems::Cells {
            cells,
            order,
            at: 0,
        }
    }

    /// The values of a row.
    pub fn of_row(kind: Kind, values: &'a [Value]) -> OutputItems<'a>
        ensures { items_left result ≡ of_kind kind values.entry.now }
    {
        OutputItems::Row { kind, values }
    }

    /// The values of runs.
    pub fn of_runs(runs: &'a [Run<'a>]) -> OutputItems<'a>
        ensures { items_left result ≡ in_runs runs.entry.now }
    {
        OutputItems::Runs {
            runs,
            run: 0,
            at: 0,
        }
    }

    /// Whether an item is left.
    #[inline]
    pub fn is_some_left(&self) -> bool
        ensures { result ≡ nat_lt 0 (length (items_left self.now)) }
    {
        match self {
            OutputItems::Row { kind: _, values } => !values.is_empty(),
            OutputItems::Cells { cells, order, at } => is_cell_left(cells, order, *at),
            OutputItems::Runs { runs, run, at } => is_value_left(runs, *run, *at),
        }
    }

    /// The values of the next items, where they are those of a row, and their kind.
    #[inline]
    pub fn ahead(&self) -> (Kind, &'a [Value])
        ensures kind { result.0 ≡ kind_ahead self.now }
        ensures values { result.1.now ≡ values_ahead self.now }
    {
        match self {
            OutputItems::Row { kind, values } => (*kind, values),
            OutputItems::Cells { .. } | OutputItems::Runs { .. } => (Kind::Logical, &[]),
        }
    }

    /// Takes so many of these items.
    #[inline]
    pub fn pass(&mut self, count: usize)
        requires { count ≤ length (values_ahead self.old) }
        ensures { items_left self.old ≡ of_kind (kind_ahead self.old) (take count (values_ahead self.old)) ++ items_left self.new }
    {
        if let OutputItems::Row { kind: _, values } = self {
            *values = &values[count..];
        }
    }

    /// Takes the next item.
    #[inline]
    pub fn next(&mut self) -> Option<Item<'a>>
        ensures items { with_next result (items_left self.new) ≡ items_left self.old }
        ensures none { IfNone result (items_left self.new ≡ []) }
    {
        match self {
            OutputItems::Row { kind, values } => next_of_row(*kind, values),
            OutputItems::Cells { cells, order, at } => next_cell(cells, order, at),
            OutputItems::Runs { runs, run, at } => next_value(runs, run, at),
        }
    }
}
