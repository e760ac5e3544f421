// Pieces of a line.
ghost use Rattle.std.specs.Prelude.{◌≡◌, ◌++◌, OnOk, OnErr};
ghost use Rattle.std.specs.List.{flat_map};
ghost use Rattle.fj_report.specs.Lines.{KeepsFront};

use fj_value::Text;
use std::alloc::AllocError;

/// Appends pieces, and after want of memory maybe some of them.
pub fn append_pieces(out: &mut Text, pieces: &[&[u8]]) -> Result<(), AllocError>
    ensures ok { OnOk result (out.new ≡ out.old ++ flat_map (λ piece. piece.now) pieces.now) }
    ensures err { OnErr result (KeepsFront out.old out.new) }
{
    for piece in pieces {
        out.push_all(piece)?;
    }
    Ok(())
}

/// Appends all pieces, or nothing.
pub fn push_pieces(out: &mut Text, pieces: &[&[u8]]) -> Result<(), AllocError>
    ensures ok { OnOk result (out.new ≡ out.old ++ flat_map (λ piece. piece.now) pieces.now) }
    ensures err { OnErr result (out.new ≡ out.old) }
{
    let start = out.len();
    match append_pieces(out, pieces) {
        Ok(()) => Ok(()),
        Err(error) => {
            out.truncate(start);
            Err(error)
        }
    }
}
