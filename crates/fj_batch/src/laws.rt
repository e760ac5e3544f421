// What holds of two batches.
ghost use Rattle.std.specs.Prelude.{ℕ};
ghost use Rattle.fj_job.specs.Seen.{seen, on_disk};
ghost use Rattle.fj_batch.specs.declared.member.Member.{Member};
ghost use Rattle.fj_batch.specs.Agreeing.{AnswersAgree};

use fj_job::one_reply;
use fj_outside::{Disk, Source};

/// Whatever the other members hold, and with any number of workers: a member of two batches, with the same text and files, has the same answer,
/// bytes and files, unless it met a fault or want of memory.
pub fn batches_agree<R: Source, D: Disk, S: Source, E: Disk>()
    ensures { (old new : Member R D) (old' new' : Member S E)
        → AnswersAgree old new (seen R.tells R.left R.count old.deck new.deck) (seen D.tells (on_disk D.held D.refusals) D.count old.disk new.disk)
        old' new' (seen S.tells S.left S.count old'.deck new'.deck) (seen E.tells (on_disk E.held E.refusals) E.count old'.disk new'.disk) }
{
    one_reply();
}
