// The items of a transfer, gathered.
ghost use Rattle.std.specs.Prelude.{◌≡◌, ◌≢◌, ◌+◌, ◌<◌, ◌^◌, ◌∷◌, [], ◌++◌, length, map, List, Err, false, IfSome, IfOk, OnOk};
ghost use Rattle.std.specs.List.{flat_map, sum_by};
ghost use Rattle.fj_meaning.specs.Items.{places_of as places_in};
ghost use Rattle.fj_statement.specs.Sound.{IsTransfer};
ghost use Rattle.fj_statement.specs.declared.statement.Operand.{Operand};
ghost use Rattle.fj_statement.specs.declared.statement.Operand.TheVariants.{Whole};
ghost use Rattle.fj_store.specs.Pieces.{size_of};
ghost use Rattle.fj_store.specs.Places.{places_of};
ghost use Rattle.fj_run_items.specs.Gathering.{IsPiece, ArePieces, IsGathered, all_items, count_of, members_in};
ghost use Rattle.fj_store.specs.declared.piece.Piece.TheVariants.{Places};

use crate::assignment::elements_of;
use crate::lost::Lost;
use fj_statement::{Control, Operand, Transfer, Variables};
use fj_store::{Piece, Run};
use std::alloc::{AllocError, Global};
use std::collections::VecDeque;

/// Pieces, and how many items they are.
#[derive(Drop)]
pub(crate) struct Gathered {
    pub pieces: VecDeque<Piece>,
    pub size: u32,
}

/// All places of a variable.
pub(crate) fn whole(variables: &Variables, var: u32) -> Run
    ensures { places_of result ≡ places_in variables.now var }
{
    Run {
        var,
        first: 1,
        count: elements_of(variables, var),
    }
}

/// Whether a transfer is of a group.
fn is_of_group(control: &Control) -> bool
    ensures { result ≡ false → members_in control.now ≡ [] }
{
    match control {
        Control::Explicit(_) | Control::Listed | Control::Unformatted => false,
        Control::Group { .. } => true,
    }
}

/// The run of places that the items are, where they are one operand that has places, and no group's.
pub(crate) fn only_run(variables: &Variables, t: &Transfer) -> Option<Run>
    ensures { IfSome result (λ run. ArePieces variables.now (all_items t.now) (Places run ∷ [])) }
{
    if is_of_group(&t.control) {
        return None;
    }
    let items = t.items.as_slice();
    if items.len() != 1 {
        return None;
    }
    match &items[0] {
        Operand::Literal { .. } => None,
        Operand::One(place) => Some(Run::of_place(*place)),
        Operand::Whole { var } => Some(whole(variables, *var)),
    }
}

fn piece_of(variables: &Variables, item: &Operand) -> Result<Piece, AllocError>
    ensures { IfOk result (λ piece. IsPiece variables.now item.now piece) }
{
    match item {
        Operand::Literal { kind, value } => {
            let value = value.try_clone()?;
            Ok(Piece::Own(*kind, value))
        }
        Operand::One(place) => Ok(Piece::Places(Run::of_place(*place))),
        Operand::Whole { var } => Ok(Piece::Places(whole(variables, *var))),
    }
}

fn size_of(piece: &Piece) -> u32
    ensures { result ≡ size_of piece.now }
{
    match piece {
        Piece::Places(run) => run.count,
        Piece::Own(_, _) => 1,
    }
}

/// One item more.
fn add_item(variables: &Variables, item: &Operand, gathered: &mut Gathered) -> Result<(), Lost>
    ensures more { (before : List Operand) → IsGathered variables.now before gathered.old → OnOk result (IsGathered variables.now (before ++ item.now ∷ []) gathered.new) }
    ensures size { OnOk result (gathered.new.size ≡ gathered.old.size + count_of variables.now item.now) }
    ensures fits { gathered.old.size + count_of variables.now item.now < 2 ^ 32 → result ≢ Err Lost.Unfit }
    ensures causes { (result ≢ Err Lost.Disk) × (result ≢ Err Lost.Sink) }
{
    let piece = piece_of(variables, item)?;
    let more = size_of(&piece);
    if more > 4294967295 - gathered.size {
        return Err(Lost::Unfit);
    }
    match gathered.pieces.push_back(piece) {
        Ok(()) => {}
        Err(e) => return Err(AllocError::from(e).into()),
    }
    gathered.size += more;
    Ok(())
}

/// Items more.
fn add_items(variables: &Variables, items: &[Operand], gathered: &mut Gathered) -> Result<(), Lost>
    ensures more { (before : List Operand) → IsGathered variables.now before gathered.old → OnOk result (IsGathered variables.now (before ++ items.now) gathered.new) }
    ensures size { OnOk result (gathered.new.size ≡ gathered.old.size + sum_by (count_of variables.now) items.now) }
    ensures fits { gathered.old.size + sum_by (count_of variables.now) items.now < 2 ^ 32 → result ≢ Err Lost.Unfit }
    ensures causes { (result ≢ Err Lost.Disk) × (result ≢ Err Lost.Sink) }
{
    for item in items {
        add_item(variables, item, gathered)?;
    }
    Ok(())
}

/// The variables of a group more.
fn add_members(variables: &Variables, vars: &[u32], gathered: &mut Gathered) -> Result<(), Lost>
    ensures more { (before : List Operand) → IsGathered variables.now before gathered.old → OnOk result (IsGathered variables.now (before ++ map Whole vars.now) gathered.new) }
    ensures fits { gathered.old.size + length (flat_map (places_in variables.now) vars.now) < 2 ^ 32 → result ≢ Err Lost.Unfit }
    ensures causes { (result ≢ Err Lost.Disk) × (result ≢ Err Lost.Sink) }
{
    for var in vars {
        add_item(variables, &Operand::Whole { var: *var }, gathered)?;
    }
    Ok(())
}

/// The items of a transfer, and the variables of its group. `Unfit`: they are too many.
pub(crate) fn gather(alloc: Global, variables: &Variables, t: &Transfer) -> Result<Gathered, Lost>
    ensures gathered { IfOk result (λ gathered. IsGathered variables.now (all_items t.now) gathered) }
    ensures fits { IsTransfer variables.now t.now → result ≢ Err Lost.Unfit }
    ensures causes { (result ≢ Err Lost.Disk) × (result ≢ Err Lost.Sink) }
{
    let mut gathered = Gathered {
        pieces: VecDeque::new(alloc),
        size: 0,
    };
    add_items(variables, t.items.as_slice(), &mut gathered)?;
    match &t.control {
        Control::Unformatted => Ok(gathered),
        Control::Explicit(_) => Ok(gathered),
        Control::Listed => Ok(gathered),
        Control::Group { name: _, vars } => {
            add_members(variables, vars.as_slice(), &mut gathered)?;
            Ok(gathered)
        }
    }
}
