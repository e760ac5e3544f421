// Texts, with the format that each is, or the place where it stops being one.
use fj_format::{Format, FormatFault, has_width_zero, parse, parse_items, print};
use itoa::Buffer;
use std::alloc::{AllocError, Global};

/// The texts: of whole formats, commas, strings, integers, other data, positions, modes, and at the
/// limits. Behind each `=` stands the text of the format that it is, or the place of the fault.
static CASES: &[u8] = b"\
    ( i5 , x , 2(a) )=(I5,1X,2(A))|\
    (I5) rest=(I5)|\
    =0|\
    I5=0|\
    )=0|\
    (=1|\
    (I5=3|\
    (I5, =5|\
    ((((I5=6|\
    ()=()|\
    \x20( ) =()|\
    ()\x00\xff('=()|\
    (())=2|\
    (\tI\t5\t)=(I5)|\
    (\n)=1|\
    (Q)=1|\
    (*(I5))=(*(I5))|\
    (i5,*(2(a,x)))=(I5,*(2(A,1X)))|\
    (/*(I5))=(/,*(I5))|\
    (*(1X))=5|\
    (*(I1),I2)=6|\
    (*(*(I1)))=3|\
    (2(*(I1)))=3|\
    (2*(I1))=2|\
    (I1*(I1))=3|\
    (I5,)=4|\
    (,I5)=1|\
    (I5,,I5)=4|\
    (I5/I5)=(I5,/,I5)|\
    (I5:I5)=(I5,:,I5)|\
    (/2/)=(/,2/)|\
    (/2X)=(/,2X)|\
    (:2(I1))=(:,2(I1))|\
    (I5 2/)=(I52,/)|\
    ('x'2/)=4|\
    (2/I5)=(2/,I5)|\
    (//)=(/,/)|\
    (2/3/)=(2/,3/)|\
    (:/:)=(:,/,:)|\
    (I5(I3))=3|\
    (2(I5)3(I4))=6|\
    (2(I5)/3(I4))=(2(I5),/,3(I4))|\
    (I5I5)=3|\
    (I5;I5)=3|\
    (X2X)=2|\
    (I5X)=3|\
    (/,)=3|\
    (2(I5,))=6|\
    ('ab=4|\
    ('a' 'b')=5|\
    ('a''b')=('a''b')|\
    (\"it's\")=('it''s')|\
    (\"a\"\"b\")=('a\"b')|\
    ('')=('')|\
    (' i5 )', 2x)=(' i5 )',2X)|\
    (\"a')=5|\
    (2'a')=2|\
    (I5'x')=3|\
    ('x'I5)=4|\
    ('x'/'y':\"z\")=('x',/,'y',:,'z')|\
    (/'x')=(/,'x')|\
    (3('a',X))=(3('a',1X))|\
    ('\x00\xff')=('\x00\xff')|\
    (I5.9)=4|\
    (I2.3)=4|\
    (I12.1 3)=7|\
    (I0.65536)=(I0.65536)|\
    (I0.65537)=8|\
    (I65536)=(I65536)|\
    (I65537)=6|\
    (I100000)=7|\
    (I 1 0)=(I10)|\
    (I007.003)=(I7.3)|\
    (I)=2|\
    (I5.)=4|\
    (I5.3.2)=5|\
    (I-5)=2|\
    (b8.4,2o6,z4.0)=(B8.4,2O6,Z4.0)|\
    (B0)=(B0)|\
    (2B5)=(2B5)|\
    (1I5)=(I5)|\
    (0I5)=2|\
    (00I5)=3|\
    (007I5)=(7I5)|\
    (65536I1)=(65536I1)|\
    (65537I1)=5|\
    (L)=2|\
    (L0)=3|\
    (5L1)=(5L1)|\
    (L5.2)=3|\
    (A0)=3|\
    (a,3a10)=(A,3A10)|\
    (A5.2)=3|\
    (G0)=(G0)|\
    (2g 0 0)=(2G0)|\
    (G0.3)=3|\
    (G0E3)=3|\
    (G01.2)=(G1.2)|\
    (G5)=3|\
    (G5.)=4|\
    (3g5.0)=(3G5.0)|\
    (G5.9)=(G5.9)|\
    (G5.2E3)=(G5.2)|\
    (G5.2E0)=7|\
    (G5.2E)=6|\
    (G5.2E3E3)=7|\
    (E5.2)=1|\
    (F5.2)=1|\
    (T5,TL6,TR7)=(T5,TL6,TR7)|\
    (T L 5)=(TL5)|\
    (T0)=3|\
    (T)=2|\
    (TX)=2|\
    (TL)=3|\
    (2T5)=2|\
    (X)=(1X)|\
    (0X)=2|\
    (65537X)=5|\
    (X,/,X)=(1X,/,1X)|\
    (1/)=(/)|\
    (0/)=2|\
    (S P)=(SP)|\
    (s,sp,ss)=(S,SP,SS)|\
    (S/SP:S)=(S,/,SP,:,S)|\
    (SI5)=2|\
    (S5)=2|\
    (2S)=2|\
    (SPP)=3|\
    (BN,B Z,B5)=(BN,BZ,B5)|\
    (2BN)=3|\
    (B)=2|\
    (DC,DP)=(DC,DP)|\
    (D)=2|\
    (2DC)=2|\
    (:)=(:)|\
    (2:)=2|\
    ((((((((((((((((((((((((((((((((X))))))))))))))))))))))))))))))))=((((((((((((((((((((((((((((((((1X))))))))))))))))))))))))))))))))|\
    (((((((((((((((((((((((((((((((((X)))))))))))))))))))))))))))))))))=32|\
    (10(10(10(10(10(10/))))))=(10(10(10(10(10(10/))))))|\
    (X,1000(999A,'x'))=too many|\
    (1000(999A,65536X))=(1000(999A,65536X))|\
    (65536(65536(65536(65536(65536(65536(65536A)))))))=too many";

/// Whether a text is read as that, and its format is copied and printed.
fn reads_as(alloc: Global, text: &[u8], answer: &[u8]) -> Result<bool, AllocError> {
    if text.len() > 1000 {
        return Ok(false);
    }
    match parse(alloc, text) {
        Ok(format) => {
            let copy = format.try_clone()?;
            let printed = print(alloc, &copy)?;
            Ok(printed.bytes() == answer)
        }
        Err(FormatFault::NotAFormat { at }) => {
            let mut buffer = Buffer::new();
            Ok(buffer.format(at).as_bytes() == answer)
        }
        Err(FormatFault::TooMany) => Ok(
            answer == b"too many".as_slice() && is_too_long(alloc, text),
        ),
        Err(FormatFault::Memory(error)) => Err(error),
    }
}

/// Whether a text has the items of a format that is too long.
fn is_too_long(alloc: Global, text: &[u8]) -> bool {
    if text.len() > 1000 {
        return false;
    }
    match parse_items(alloc, text) {
        Ok(items) => matches!(Format::of(alloc, items), Ok(None)),
        Err(_) => false,
    }
}

/// Formats with a field as wide as its value, and others.
static WIDTHS: [(&str, bool); 9] = [
    ("(I0)", true),
    ("(B0.5)", true),
    ("(A,2(X,3(O0)))", true),
    ("(1000(1000A),X,Z0)", true),
    ("(I10,B1,O2.0,Z3)", false),
    ("(A,2G0)", true),
    ("(*(2(G0)))", true),
    ("(L1,A,G1.0)", false),
    ("()", false),
];

fn has_width(alloc: Global, text: &str) -> Option<bool> {
    if text.len() > 1000 {
        return None;
    }
    let items = parse_items(alloc, text.as_bytes()).ok()?;
    Some(has_width_zero(&items))
}

#[test]
fn widths(rt: HostRuntime) {
    for (text, wanted) in WIDTHS.iter() {
        assert!(rt; has_width(rt.alloc(), text) == Some(*wanted), "{text}");
    }
}

/// Whether what stands before the `=` of a case is read as what stands behind it.
fn is_read(alloc: Global, case: &[u8]) -> Result<bool, AllocError> {
    match case.iter().position(|c| *c == b'=') {
        Some(at) => reads_as(alloc, &case[..at], &case[at + 1..]),
        None => Ok(false),
    }
}

#[test]
fn texts_are_read(rt: HostRuntime) -> Result<(), AllocError> {
    for (number, case) in CASES.split(|c| *c == b'|').enumerate() {
        assert!(rt; is_read(rt.alloc(), case)?, "case {number}");
    }
    Ok(())
}
