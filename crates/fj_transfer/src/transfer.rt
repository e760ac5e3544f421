// What a READ or WRITE transfers.
ghost use Rattle.std.specs.Prelude.{◌≡◌, ◌<◌, ◌^◌, length, All};
ghost use Rattle.std.specs.Option.{option_map_or};
ghost use Rattle.std.proofs.Props.{props};
ghost use Rattle.fj_moved.specs.Moved.{AreDistinct, IsOrdered};
ghost use Rattle.fj_moved.specs.declared.moved.Moved.{Moved as MovedCells};
ghost use Rattle.fj_namelist.specs.GroupText.{IsWithin};
ghost use Rattle.fj_transfer.specs.Moving.{members_of};

use crate::change::EditChange;
use fj_format::Format;
use fj_moved::{GroupMember, Load, Moved};
use fj_value::{Items, Tag, Text};

/// The variables of a namelist group.
pub type Members = Items<GroupMember>;

/// How a transfer lays out its values (ISO/IEC 1539-1:2004, 9.5.1.1).
#[derive(Drop)]
pub enum Layout {
    Unformatted,
    Explicit(Format),
    /// List-directed.
    Listed,
    /// The name of a namelist group, and its variables.
    Group(Text, Members),
}

/// A READ or WRITE without its unit and its items (ISO/IEC 1539-1:2004, 9.5.1).
#[derive(Drop)]
pub struct TransferSpec {
    /// READ.
    pub input: bool,
    pub layout: Layout,
    /// ADVANCE='YES'. It counts under an explicit format alone.
    pub advance: bool,
    pub rec: Option<i64>,
    pub pos: Option<i64>,
    pub edit: EditChange,
}

/// A READ or WRITE that is carried out.
#[derive(Drop)]
pub struct Transfer {
    /// The number of its statement.
    pub stmt: u32,
    pub tag: Tag,
    pub spec: TransferSpec,
    pub moved: Load,
    /// The variable of SIZE=, as one cell.
    pub size: Option<Moved>,
    /// What SIZE= gets.
    pub count: Option<u64>,
    /// No two cells have the same place: a variable that is an item twice has one cell, and each place gets back what one cell holds.
    pub ghost distinct: { AreDistinct moved.cells },
    /// SIZE= has one cell, where it is given.
    pub ghost single: { option_map_or (λ (size : MovedCells). length size.cells) size 1 ≡ 1 },
    /// Each item has a cell.
    ghost ordered: { IsOrdered moved } by { Prim.hlevel props },
    /// There are not too many items to count what they take.
    ghost few: { length moved.order < 2 ^ 32 },
    /// The variables of a namelist group have cells.
    ghost grouped: { All (IsWithin (length moved.cells)) (members_of spec.layout) } by { Prim.hlevel props },
}
