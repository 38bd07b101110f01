//! Texts and their tokens, by lang_expr and lang_keywords.
use schema_tokens::{Kind, read, tokens};
use std::test::Fail;

/// Of each text the kinds of its tokens and how far it is read.
static READ: [(&[u8], &[Kind], usize); 12] = [
    (
        b"a\"b\"\"c\" 'it''s'",
        &[Kind::Word, Kind::Quoted, Kind::Text],
        15,
    ),
    (b"x'0aFf' x'0' ", &[Kind::Blob], 8),
    (
        b"12 1.5 .5e-3 0x1F",
        &[Kind::Integer, Kind::Float, Kind::Float, Kind::Integer],
        17,
    ),
    (b"12a", &[], 0),
    (
        b"?1 :a @b $c::d(e)",
        &[
            Kind::Variable,
            Kind::Variable,
            Kind::Variable,
            Kind::Variable,
        ],
        17,
    ),
    (b"a--b\nc/*d*/e", &[Kind::Word, Kind::Word, Kind::Word], 12),
    (b"a/*b", &[Kind::Word], 4),
    (b"a/*", &[Kind::Word, Kind::Operator, Kind::Operator], 3),
    (
        b"Create tAble temp left",
        &[
            Kind::Reserved,
            Kind::Reserved,
            Kind::Fallback,
            Kind::Joining,
        ],
        22,
    ),
    (b"a\0b", &[Kind::Word], 1),
    (b"a 'b", &[Kind::Word], 2),
    (
        b"a->>b!=c!",
        &[
            Kind::Word,
            Kind::Operator,
            Kind::Word,
            Kind::Operator,
            Kind::Word,
        ],
        8,
    ),
];

#[test]
fn texts_have_their_tokens(rt: HostRuntime) -> Result<(), Fail> {
    for (text, kinds, end) in READ.iter() {
        let reading = read(rt.alloc(), text)?;
        let found = tokens(rt.alloc(), reading.pieces.as_slice())?;
        assert_eq!(rt; reading.end, *end);
        assert_eq!(rt; found.len(), kinds.len());
        for (token, kind) in found.as_slice().iter().zip(kinds.iter()) {
            assert_eq!(rt; token.kind, *kind);
        }
    }
    Ok(())
}
