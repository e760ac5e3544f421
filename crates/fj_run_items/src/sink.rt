// What a statement hands to a sink.
ghost use Rattle.std.specs.Prelude.{◌≡◌, ◌≢◌, ◌≤◌, ◌++◌, ◌↔◌, Err, OnOk, OnErr};
ghost use Rattle.fj_outside.specs.Faults.{Rose};
ghost use Rattle.fj_run_items.specs.Handing.{TakesFront, TakesPart};

use crate::lost::Lost;
use fj_outside::Sink;

/// Hands a piece to a sink until it took all of it.
pub fn put_all<W: Sink>(out: &mut W, piece: &[u8]) -> Result<(), Lost>
    ensures telling { W.tells out.old ↔ W.tells out.new }
    ensures ok { W.tells out.old → OnOk result (W.taken out.new ≡ W.taken out.old ++ piece.now) }
    ensures front { W.tells out.old → TakesFront (W.taken out.old) (W.taken out.new) piece.now }
    ensures part { W.tells out.old → OnErr result (TakesPart (W.taken out.old) (W.taken out.new) piece.now) }
    ensures later { W.count out.old ≤ W.count out.new }
    ensures failed { result ≡ Err Lost.Sink → Rose (W.count out.old) (W.count out.new) }
    ensures causes { (result ≢ Err Lost.Disk) × (result ≢ Err Lost.Unfit) }
{
    let mut rest = piece;
    'handing: while !rest.is_empty() {
        match out.write(rest) {
            Ok(count) => rest = &rest[count..],
            Err(stop) => return Err(Lost::of_sink(stop)),
        }
    }
    Ok(())
}
