//! Digests and their texts, by the vectors of their standards.
use crate::report::{Failure, expect, report};
use gcs_crc::{BadDigest, Crc, Digests, combine, crc_text, md5_text, read_crc, read_md5};
use std::alloc::Global;
use std::io;

const RISING: [u8; 32] = [
    0, 1, 2, 3, 4, 5, 6, 7, 8, 9, 10, 11, 12, 13, 14, 15, 16, 17, 18, 19, 20, 21, 22, 23, 24, 25,
    26, 27, 28, 29, 30, 31,
];

// RFC 3720, B.4, and the check value that catalogues of CRCs give.
const CRCS: [(&[u8], u32); 5] = [
    (b"", 0),
    (b"123456789", 0xE306_9283),
    (&[0; 32], 0x8A91_36AA),
    (&[0xFF; 32], 0x62A8_AB43),
    (&RISING, 0x46DD_794E),
];

// The MD5s of no bytes and of `abc` are in RFC 1321, A.5; the third row is that of a worked exchange with the service.
const TEXTS: [(&[u8], &str, &str); 3] = [
    (b"", "AAAAAA==", "1B2M2Y8AsgTpgAmY7PhCfg=="),
    (b"abc", "Nks/tw==", "kAFQmDzST7DWlj99KOF/cg=="),
    (b"123456789", "4waSgw==", "JfnnlDI7RTiF9RgfG2JNCw=="),
];

// Texts of no digest: too short, without padding, with bits past the last byte, with a blank.
const OTHERS: [&[u8]; 5] = [b"", b"4waSgw", b"4waSgx==", b"4waS", b" 4waSgw=="];

pub fn report_cases(rt: &(impl Print + AllocGlobal)) -> io::Result<bool> {
    let alloc = rt.alloc();
    let values = report(rt, "crcs_are_those_of_the_standard", try_values())?;
    let cuts = report(
        rt,
        "pieces_and_joined_texts_give_the_crc_of_the_whole",
        try_cuts(),
    )?;
    let texts = report(rt, "both_digests_have_their_base64_texts", try_texts(alloc))?;
    let others = report(rt, "only_a_digests_own_text_is_read", try_others(alloc))?;
    Ok(values && cuts && texts && others)
}

fn crc_of(bytes: &[u8]) -> u32 {
    let mut crc = Crc::new();
    crc.update(bytes);
    crc.value()
}

fn try_values() -> Result<(), Failure> {
    for (row, (bytes, wanted)) in CRCS.iter().enumerate() {
        expect(row, crc_of(bytes) == *wanted)?;
    }
    Ok(())
}

fn try_cuts() -> Result<(), Failure> {
    let text: &[u8] = b"The quick brown fox jumps over the lazy dog";
    for cut in 0..text.len() {
        let (front, back) = text.split_at(cut);
        let mut pieces = Crc::new();
        pieces.update(front);
        pieces.update(back);
        expect(cut, pieces.value() == crc_of(text))?;
        let joined = combine(crc_of(front), crc_of(back), back.len() as u64);
        expect(cut, joined == crc_of(text))?;
    }
    let joined = combine(crc_of(b"12345"), crc_of(b"6789"), 4);
    expect(text.len(), joined == 0xE306_9283)
}

fn try_texts(alloc: Global) -> Result<(), Failure> {
    for (row, (bytes, crc_wanted, md5_wanted)) in TEXTS.iter().enumerate() {
        let (front, back) = bytes.split_at(bytes.len() / 2);
        let mut digests = Digests::new();
        digests.update(front);
        digests.update(back);
        let (crc, md5) = digests.finish();
        expect(row, crc_text(alloc, crc)?.as_str() == *crc_wanted)?;
        expect(row, md5_text(alloc, &md5)?.as_str() == *md5_wanted)?;
        let crc_back = read_crc(alloc, crc_wanted.as_bytes());
        expect(row, matches!(crc_back, Ok(value) if value == crc))?;
        let md5_back = read_md5(alloc, md5_wanted.as_bytes());
        expect(row, matches!(md5_back, Ok(value) if value == md5))?;
    }
    Ok(())
}

fn try_others(alloc: Global) -> Result<(), Failure> {
    for (row, text) in OTHERS.iter().enumerate() {
        expect(row, matches!(read_crc(alloc, text), Err(BadDigest::Form)))?;
        expect(row, matches!(read_md5(alloc, text), Err(BadDigest::Form)))?;
    }
    let crc_as_md5 = read_md5(alloc, b"4waSgw==");
    expect(OTHERS.len(), matches!(crc_as_md5, Err(BadDigest::Form)))
}
