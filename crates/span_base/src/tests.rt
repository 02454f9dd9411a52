use crate::{
    BadName, Bytes, DcId, DcSet, Listed, NumberFault, Value, Word, read_name, read_number,
};
use std::test::Fail;

#[test]
fn a_number_has_at_most_38_digits_and_no_zeros_before_it(rt: HostRuntime) {
    let most = 99_999_999_999_999_999_999_999_999_999_999_999_999;
    let longest = "99999999999999999999999999999999999999";
    let longer = "100000000000000000000000000000000000000";
    for (text, limit, read) in [
        ("0", 0, Ok(0)),
        (longest, most, Ok(most)),
        (longest, most - 1, Err(NumberFault::Limit { number: most })),
        (longer, u128::MAX, Err(NumberFault::Bad { at: 38 })),
        ("007", 9, Err(NumberFault::Bad { at: 1 })),
        ("", 9, Err(NumberFault::Bad { at: 0 })),
        ("1 ", 9, Err(NumberFault::Bad { at: 1 })),
    ] {
        assert_eq!(rt; read_number(text.as_bytes(), limit), read, "{text}");
    }
}

#[test]
fn a_name_has_1_to_32_bytes(rt: HostRuntime) {
    for (text, read) in [
        ("us-east_1.B", Ok(())),
        ("abcdefghijklmnopqrstuvwxyzabcdef", Ok(())),
        ("abcdefghijklmnopqrstuvwxyzabcdefg", Err(BadName { at: 32 })),
        ("", Err(BadName { at: 0 })),
        ("a/", Err(BadName { at: 1 })),
    ] {
        assert_eq!(rt; read_name(text.as_bytes()), read, "{text}");
    }
}

#[test]
fn a_set_has_16_centres(rt: HostRuntime) {
    let set = DcSet::from_bits(u16::MAX);
    assert_eq!(rt; set.count(), 16);
    assert!(rt; set.has(DcId(15)) && !set.has(DcId(16)));
    assert_eq!(rt; DcSet::empty().with(DcId(3)).bits(), 8);
}

#[test]
fn what_is_kept_has_equal_copies(rt: HostRuntime) -> Result<(), Fail> {
    let alloc = rt.alloc();
    let word = Word::from_string(String::from_str(alloc, "a-b")?);
    assert!(rt; word.clone()? == word);
    let value = Value::from_vec(b"xyz".to_vec(alloc)?);
    assert!(rt; value.clone()? == value);
    Ok(())
}

#[test]
fn a_list_grows_and_changes(rt: HostRuntime) -> Result<(), Fail> {
    let mut bytes = Bytes::new(rt.alloc());
    bytes.push(b'x')?;
    bytes.set(0, b'y');
    let copy: Listed<u8> = bytes.clone()?;
    assert_eq!(rt; copy.into_vec().as_slice(), b"y".as_slice());
    Ok(())
}
