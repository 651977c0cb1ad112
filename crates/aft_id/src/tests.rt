use crate::{Bytes, IdFault, List, Text, TxnId, parse_uuid};
use std::test::Fail;
use uuid::Uuid;

#[test]
fn texts_that_name_a_uuid(rt: HostRuntime) -> Result<(), Fail> {
    let forms = [
        ("00000000000000000000000000000001", 1),
        ("00000000-0000-0000-0000-000000000001", 1),
        ("{00000000-0000-0000-0000-000000000001}", 1),
        ("urn:uuid:00000000-0000-0000-0000-000000000001", 1),
        ("00000000-0000-0000-0000-0000000000aB", 171),
        ("FFFFFFFFFFFFFFFFFFFFFFFFFFFFFFFF", u128::MAX),
        ("@1", 1),
        ("@0001", 1),
        ("@0", 0),
        ("@340282366920938463463374607431768211455", u128::MAX),
    ];
    for (text, number) in forms {
        assert_eq!(rt; parse_uuid(text), Ok(Uuid::from_u128(number)), "at {text}");
    }
    Ok(())
}

#[test]
fn texts_that_name_no_uuid(rt: HostRuntime) -> Result<(), Fail> {
    let texts = [
        "",
        "@",
        "@340282366920938463463374607431768211456",
        "@0000000000000000000000000000000000000001",
        "@-1",
        "@+1",
        "@ 1",
        "1",
        "URN:UUID:00000000-0000-0000-0000-000000000001",
        "urn:uuid:00000000000000000000000000000001",
        "{00000000000000000000000000000001}",
        "0000000000000000000000000000001",
        "0000000000000000000000000000000g",
        "00000000-0000-0000-00000-00000000001",
    ];
    for text in texts {
        assert_eq!(rt; parse_uuid(text), Err(IdFault::BadUuid), "at {text}");
    }
    Ok(())
}

#[test]
fn ids_as_text(rt: HostRuntime) -> Result<(), Fail> {
    let texts = [
        (0, 0, "0-00000000-0000-0000-0000-000000000000"),
        (1000, 1, "1000-00000000-0000-0000-0000-000000000001"),
        (
            281474976710655,
            u128::MAX,
            "281474976710655-ffffffff-ffff-ffff-ffff-ffffffffffff",
        ),
    ];
    for (time, number, text) in texts {
        let id = TxnId {
            time,
            uuid: Uuid::from_u128(number),
        };
        let written = id.write(rt.alloc())?;
        assert_eq!(rt; written.as_str(), text);
        assert_eq!(rt; TxnId::read(text), Ok(id));
    }
    Ok(())
}

#[test]
fn texts_of_no_id(rt: HostRuntime) -> Result<(), Fail> {
    let texts = [
        "",
        "-",
        "1000",
        "1000-",
        "-00000000-0000-0000-0000-000000000001",
        "+1000-00000000-0000-0000-0000-000000000001",
        "01000-00000000-0000-0000-0000-000000000001",
        "00-00000000-0000-0000-0000-000000000001",
        "1000-00000000-0000-0000-0000-00000000000A",
        "1000-00000000000000000000000000000001",
        "1000-00000000-0000-0000-0000-00000000001",
        "1000-00000000-0000-0000-0000-0000000000010",
        "1000-00000000-0000-0000-0000-000000000001 ",
        "281474976710656-00000000-0000-0000-0000-000000000001",
        "18446744073709551616-00000000-0000-0000-0000-000000000001",
    ];
    for text in texts {
        assert_eq!(rt; TxnId::read(text), Err(IdFault::BadId), "at {text}");
    }
    Ok(())
}

#[test]
fn ids_ascend_by_time_and_then_by_number(rt: HostRuntime) -> Result<(), Fail> {
    let ids = [
        (0, 0),
        (0, 1),
        (1, 0),
        (1, 255),
        (1, 256),
        (1, 1 << 64),
        (1, u128::MAX),
        (2, 0),
        (256, 0),
    ];
    let mut before: Option<TxnId> = None;
    for (time, number) in ids {
        let id = TxnId {
            time,
            uuid: Uuid::from_u128(number),
        };
        if let Some(last) = before {
            assert!(rt; last < id && last.is_before(&id) && !id.is_before(&last));
            assert_eq!(rt; last.compare(&id), last.cmp(&id));
        }
        before = Some(id);
    }
    assert_eq!(rt;
        TxnId::zero(),
        TxnId {
            time: 0,
            uuid: Uuid::nil()
        }
    );
    Ok(())
}

#[test]
fn lists_bytes_and_texts(rt: HostRuntime) -> Result<(), Fail> {
    let list = List::from_vec(vec![in rt.alloc(); 3u8, 1, 2]?);
    let copy = list.clone()?;
    assert!(rt; list == copy);
    assert_eq!(rt; list.as_slice(), [3, 1, 2].as_slice());
    assert_eq!(rt; list.into_vec().as_slice(), copy.as_slice());

    let bytes = Bytes::from_vec([0u8, 255].to_vec(rt.alloc())?);
    let other = Bytes::from_vec([255u8, 0].to_vec(rt.alloc())?);
    assert!(rt; bytes == bytes.clone()? && bytes != other);
    assert_eq!(rt; bytes.into_vec().as_slice(), [0, 255].as_slice());

    let text = Text::from_string(String::from_str(rt.alloc(), "né")?);
    let other = Text::from_string(String::from_str(rt.alloc(), "ne")?);
    assert!(rt; text == text.clone()? && text != other);
    assert_eq!(rt; text.as_str(), "né");
    assert_eq!(rt; text.into_string().as_str(), "né");
    Ok(())
}
