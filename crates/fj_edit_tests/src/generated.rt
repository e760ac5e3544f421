// Decks of few transfers.
use fj_gen::{byte_sum, generate};
use std::test::Fail;

/// A seed, a count, and the deck.
static DECKS: [(u32, u32, &[u8]); 3] = [
    (
        0,
        0,
        b"INTEGER V(4)\nOPEN(10,FILE='G10',STATUS='REPLACE',ASYNCHRONOUS='YES')\nOPEN(11,FILE='G11',STATUS='REPLACE',ASYNCHRONOUS='YES')\nCLOSE(10)\nCLOSE(11)\nEND\n",
    ),
    (
        1,
        2,
        b"INTEGER V(4)\nOPEN(10,FILE='G10',STATUS='REPLACE',ASYNCHRONOUS='YES')\nOPEN(11,FILE='G11',STATUS='REPLACE',ASYNCHRONOUS='YES')\nV(1) = 758\nWRITE(10,'(I6)',ASYNCHRONOUS='YES') V(1)\nV(2) = 515\nWRITE(11,'(I6)',ASYNCHRONOUS='YES') V(2)\nCLOSE(10)\nCLOSE(11)\nEND\n",
    ),
    (
        2_147_483_647,
        5,
        b"INTEGER V(4)\nOPEN(10,FILE='G10',STATUS='REPLACE',ASYNCHRONOUS='YES')\nOPEN(11,FILE='G11',STATUS='REPLACE',ASYNCHRONOUS='YES')\nV(1) = 409\nWRITE(11,'(I6)',ASYNCHRONOUS='YES') V(1)\nV(2) = 718\nWRITE(10,'(I6)',ASYNCHRONOUS='YES') V(2)\nV(3) = 226\nWRITE(11,'(I6)',ASYNCHRONOUS='YES') V(3)\nV(4) = 63\nWRITE(10,'(I6)',ASYNCHRONOUS='YES') V(4)\nWAIT(10)\nWAIT(11)\nV(1) = 734\nWRITE(10,'(I6)',ASYNCHRONOUS='YES') V(1)\nCLOSE(10)\nCLOSE(11)\nEND\n",
    ),
];

#[test]
fn decks(rt: HostRuntime) -> Result<(), Fail> {
    for (seed, count, deck) in DECKS.iter() {
        let text = generate(rt.alloc(), *seed, *count)?;
        assert_eq!(rt; text.bytes(), *deck);
    }
    Ok(())
}

#[test]
fn sums(rt: HostRuntime) {
    assert_eq!(rt; byte_sum(b"   758\n"), 270);
    assert_eq!(rt; byte_sum(b"   515\n"), 261);
    assert_eq!(rt; byte_sum(b""), 0);
}
