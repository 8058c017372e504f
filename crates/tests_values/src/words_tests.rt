use std::alloc::{AllocError, Global};
use std::test::Fail;
use words::{Column, Kind, Label, ValueFault, pack_text, read_num, spread, unpack_text};

const NUMBERS: &[(&str, Result<u64, ValueFault>)] = &[
    ("0", Ok(0)),
    ("7", Ok(7)),
    ("0000000000000000000000000000000000012", Ok(12)),
    ("18446744073709551615", Ok(18446744073709551615)),
    ("00018446744073709551615", Ok(18446744073709551615)),
    ("18446744073709551616", Err(ValueFault::TooLarge)),
    ("18446744073709551620", Err(ValueFault::TooLarge)),
    ("99999999999999999999999", Err(ValueFault::TooLarge)),
    ("", Err(ValueFault::NotNumber)),
    (" 1", Err(ValueFault::NotNumber)),
    ("+1", Err(ValueFault::NotNumber)),
    ("-1", Err(ValueFault::NotNumber)),
    ("1x", Err(ValueFault::NotNumber)),
    ("0x1", Err(ValueFault::NotNumber)),
    ("99999999999999999999999x", Err(ValueFault::NotNumber)),
    ("１", Err(ValueFault::NotNumber)),
];

// The first of the texts that is read as something else.
fn first_other_number(cases: &[(&str, Result<u64, ValueFault>)]) -> Option<usize> {
    for (index, (text, want)) in cases.iter().enumerate() {
        if read_num(text.as_bytes()) != *want {
            return Some(index);
        }
    }
    None
}

#[test]
fn reads_exactly_the_numbers_of_a_word(rt: HostRuntime) {
    assert_eq!(rt; first_other_number(NUMBERS), None);
}

const TEXTS: &[(&[u8], Result<u64, ValueFault>)] = &[
    (b"", Ok(0)),
    (b"02139", Ok(0x3032_3133_3900_0000)),
    (b"a", Ok(0x6100_0000_0000_0000)),
    (b"ab,cdefg", Ok(0x6162_2C63_6465_6667)),
    (b" ~", Ok(0x207E_0000_0000_0000)),
    (b"abcdefghi", Err(ValueFault::TextLong)),
    (b"\xC3\xA9abcdefg", Err(ValueFault::TextLong)),
    (b"\x1F", Err(ValueFault::TextByte)),
    (b"a\x7F", Err(ValueFault::TextByte)),
    (b"\xC3\xA9", Err(ValueFault::TextByte)),
    (b"a\x00", Err(ValueFault::TextByte)),
];

// The first of the texts that is packed as something else.
fn first_other_text(cases: &[(&[u8], Result<u64, ValueFault>)]) -> Option<usize> {
    for (index, (bytes, want)) in cases.iter().enumerate() {
        if pack_text(bytes) != *want {
            return Some(index);
        }
    }
    None
}

#[test]
fn packs_exactly_the_texts(rt: HostRuntime) {
    assert_eq!(rt; first_other_text(TEXTS), None);
}

const PACKED: &[(u64, &[u8])] = &[
    (0, b""),
    (0x3032_3133_3900_0000, b"02139"),
    (0x6162_2C63_6465_6667, b"ab,cdefg"),
    (0x6100_6200_0000_0000, b"a\x00b"),
    (1, b"\x00\x00\x00\x00\x00\x00\x00\x01"),
];

// The first of the words that is unpacked as another text.
fn first_other_word(alloc: Global, cases: &[(u64, &[u8])]) -> Result<Option<usize>, AllocError> {
    for (index, (word, want)) in cases.iter().enumerate() {
        if unpack_text(alloc, *word)?.as_slice() != *want {
            return Ok(Some(index));
        }
    }
    Ok(None)
}

#[test]
fn unpacks_words_without_their_end_zeros(rt: HostRuntime) -> Result<(), Fail> {
    assert_eq!(rt; first_other_word(rt.alloc(), PACKED)?, None);
    Ok(())
}

#[test]
fn spreads_the_low_bit(rt: HostRuntime) {
    for (word, want) in [(0, 0), (1, u64::MAX), (2, 0), (7, u64::MAX), (1 << 63, 0)] {
        assert_eq!(rt; spread(word), want, "at {word}");
    }
}

fn is_column(column: &Column, name: &[u8]) -> bool {
    column.name.bytes() == name && column.kind == Kind::Num
}

// Whether a column is as it was made, and its copy is.
fn is_kept(alloc: Global, name: &[u8]) -> Result<bool, AllocError> {
    let column = Column {
        name: Label::new(alloc, name)?,
        kind: Kind::Num,
    };
    let copy = column.clone()?;
    Ok(is_column(&column, name) && is_column(&copy, name))
}

#[test]
fn labels_and_columns_keep_their_bytes(rt: HostRuntime) -> Result<(), Fail> {
    assert!(rt; is_kept(rt.alloc(), b"ssn")?);
    Ok(())
}
