// Each call on records, over a file whose k-th call fails.
ghost use Rattle.std.specs.Prelude.{◌≡◌};
ghost use Rattle.std.specs.FinSet as set;

use crate::disks::{NAME, begin_alike, failed, failing};
use fj_byterec::{read_direct, read_stream, write_direct, write_stream};
use fj_outside::{Disk, FileStore, Stop};
use fj_seqrec::{append_records, backspace_line, read_record};
use fj_unfrec::{append_frame, backspace_frame, read_frame};
use fj_value::Text;
use std::alloc::Global;
use std::test::*;

// Two frames, which are one line and six records of four bytes.
const WHOLE: [u8; 24] = [
    4, 0, 0, 0, 5, 0, 0, 0, 4, 0, 0, 0, 4, 0, 0, 0, 6, 0, 0, 0, 4, 0, 0, 0,
];

use Call::{
    AppendLongFrame, AppendRecords, AppendShortFrame, BackspaceFrame, BackspaceLine, ReadDirect,
    ReadFrame, ReadRecord, ReadStream, WriteDirectBehindGap, WriteDirectInside, WriteStream,
};

#[derive(Clone, Copy)]
enum Call {
    ReadRecord,
    BackspaceLine,
    AppendRecords,
    ReadFrame,
    BackspaceFrame,
    AppendShortFrame,
    AppendLongFrame,
    ReadDirect,
    WriteDirectInside,
    WriteDirectBehindGap,
    ReadStream,
    WriteStream,
}

/// Makes a call on lines, and answers whether the outside failed.
fn run_on_lines<F: FileStore>(file: &mut F, call: Call, into: &mut Text) -> bool {
    let len = file.len();
    match call {
        ReadRecord => failed(read_record(file, 0, 99, into)),
        BackspaceLine if 24 <= len => backspace_line(file, 24).is_err(),
        AppendRecords if 12 <= len => failed(append_records(file, 12, b"ab\n", true)),
        _ => false,
    }
}

/// A call on frames.
fn run_on_frames<F: FileStore>(file: &mut F, call: Call, into: &mut Text) -> bool {
    let len = file.len();
    match call {
        ReadFrame if 12 <= len => failed(read_frame(file, 12, 99, into)),
        BackspaceFrame if 24 <= len => backspace_frame(file, 24).is_err(),
        AppendShortFrame if 12 <= len => failed(append_frame(file, 12, b"ab")),
        AppendLongFrame if 12 <= len => failed(append_frame(file, 12, &[7; 1500])),
        _ => false,
    }
}

/// A call on direct records or on bytes.
fn run_on_bytes<F: FileStore>(file: &mut F, call: Call, into: &mut Text) -> bool {
    let len = file.len();
    match call {
        ReadDirect => failed(read_direct(file, 4, 2, into)),
        WriteDirectInside => failed(write_direct(file, 4, 2, b"x", b' ')),
        WriteDirectBehindGap => failed(write_direct(file, 4, 9, b"x", b' ')),
        ReadStream if 3 <= len => failed(read_stream(file, 3, 5, into)),
        WriteStream if 5 <= len => failed(write_stream(file, 5, b"xyz")),
        _ => false,
    }
}

fn run<F: FileStore>(file: &mut F, call: Call, into: &mut Text) -> bool {
    match call {
        ReadRecord | BackspaceLine | AppendRecords => run_on_lines(file, call, into),
        ReadFrame | BackspaceFrame | AppendShortFrame | AppendLongFrame => {
            run_on_frames(file, call, into)
        }
        ReadDirect | WriteDirectInside | WriteDirectBehindGap | ReadStream | WriteStream => {
            run_on_bytes(file, call, into)
        }
    }
}

/// Runs a call on the file, and answers whether it failed and how many faults the file counts; none where there is no file.
fn run_on<D: Disk>(alloc: Global, disk: &mut D, call: Call) -> Result<(bool, u64), Stop>
    requires { D.tells disk.old → (D.held disk.old).in_use ≡ set.empty }
{
    let mut file = match disk.take(alloc, NAME) {
        Ok(Some(file)) => file,
        Ok(None) => return Ok((false, 99)),
        Err(stop) => return Err(stop),
    };
    let failed = run(&mut file, call, &mut Text::new(alloc));
    let faults = file.faults();
    disk.give(NAME, file);
    Ok((failed, faults))
}

/// Whether a call failed at the k-th call on the file, how many faults the file counts, and whether it begins as it was.
fn fails(alloc: Global, call: Call, kept: usize, k: u64) -> Result<(bool, u64, bool), Stop> {
    let mut disk = failing(alloc, Some(&WHOLE), 0, k)?;
    let ran = run_on(alloc, &mut disk, call);
    let alike = begin_alike(disk.bytes_of(NAME), &WHOLE, kept);
    drop(disk);
    match ran {
        Ok((failed, faults)) => Ok((failed, faults, alike)),
        Err(stop) => Err(stop),
    }
}

// How many calls on the file each makes, and up to where it leaves the file as it was.
static CALLS: [(Call, u64, usize); 12] = [
    (ReadRecord, 1, 24),
    (BackspaceLine, 1, 24),
    (AppendRecords, 2, 12),
    (ReadFrame, 3, 24),
    (BackspaceFrame, 2, 24),
    (AppendShortFrame, 2, 12),
    (AppendLongFrame, 3, 12),
    (ReadDirect, 1, 24),
    (WriteDirectInside, 1, 4),
    (WriteDirectBehindGap, 3, 24),
    (ReadStream, 1, 24),
    (WriteStream, 1, 5),
];

#[test]
fn the_kth_call_fails(rt: HostRuntime) {
    for (number, (call, count, kept)) in CALLS.iter().enumerate() {
        for k in 1..5 {
            let fails_then = k <= *count;
            let due = (fails_then, u64::from(fails_then), true);
            assert!(rt;
                fails(rt.alloc(), *call, *kept, k) == Ok(due),
                "row {number}, call {k}"
            );
        }
    }
}
