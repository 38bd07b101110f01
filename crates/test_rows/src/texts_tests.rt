//! Worked texts: the expected bytes were written by hand from the Unicode Standard, 3.9.
use sqdeep::Encoding;
use sqtext::{decoded, encoded, encoding_named, has_nul_or_cr, split_char};
use std::test::Fail;

/// U+10437, the standard's example of a pair.
const PAIR: &[u8] = b"\xf0\x90\x90\xb7";

#[test]
fn texts_in_utf8(rt: HostRuntime) -> Result<(), Fail> {
    let little = decoded(rt.alloc(), Encoding::Utf16Le, b"\x01\xd8\x37\xdc")?;
    assert!(rt; little.as_slice() == PAIR);
    let big = decoded(rt.alloc(), Encoding::Utf16Be, b"\xd8\x01\xdc\x37")?;
    assert!(rt; big.as_slice() == PAIR);
    let alone = decoded(rt.alloc(), Encoding::Utf16Be, b"\xd8\x01\x00a")?;
    assert!(rt; alone.as_slice() == b"\xd8\x01\x00a".as_slice());
    let same = decoded(rt.alloc(), Encoding::Utf8, b"\xff")?;
    assert!(rt; same.as_slice() == b"\xff".as_slice());
    Ok(())
}

#[test]
fn texts_as_they_are_stored(rt: HostRuntime) -> Result<(), Fail> {
    let little = encoded(rt.alloc(), Encoding::Utf16Le, PAIR)?;
    assert!(rt; little.as_slice() == b"\x01\xd8\x37\xdc".as_slice());
    let big = encoded(rt.alloc(), Encoding::Utf16Be, PAIR)?;
    assert!(rt; big.as_slice() == b"\xd8\x01\xdc\x37".as_slice());
    let same = encoded(rt.alloc(), Encoding::Utf8, PAIR)?;
    assert!(rt; same.as_slice() == PAIR);
    Ok(())
}

#[test]
fn characters(rt: HostRuntime) -> Result<(), Fail> {
    assert!(rt; encoding_named(2) == Encoding::Utf16Le && encoding_named(3) == Encoding::Utf16Be);
    assert!(rt; encoding_named(0) == Encoding::Utf8 && encoding_named(1) == Encoding::Utf8);
    assert!(rt;
        split_char(false, b"a\x00b").is_some_and(|(c, rest)| c == 'a' && rest == b"b".as_slice())
    );
    assert!(rt; split_char(false, b"a").is_none());
    assert!(rt; has_nul_or_cr(Encoding::Utf16Le, b"a\x00") == Some(false));
    assert!(rt; has_nul_or_cr(Encoding::Utf16Le, b"a\x00\x00\x00") == Some(true));
    assert!(rt; has_nul_or_cr(Encoding::Utf16Le, b"\r\x00") == Some(true));
    assert!(rt; has_nul_or_cr(Encoding::Utf16Le, b"a").is_none());
    Ok(())
}
