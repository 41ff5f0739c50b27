use std::test::Fail;
use vub_base::{Bytes, Listed, OutOfMemory};

#[test]
fn bytes_keep_what_they_are_made_of(rt: HostRuntime) -> Result<(), Fail> {
    let bytes = Bytes::from_slice(rt.alloc(), b"hello")?;
    assert_eq!(rt; bytes.as_slice(), b"hello".as_slice());
    assert_eq!(rt; bytes.len(), 5);
    assert!(rt; !bytes.is_empty());
    assert!(rt; Bytes::new(rt.alloc()).is_empty());
    let mut again = Bytes::from_vec(bytes.into_vec());
    assert_eq!(rt; again.as_slice(), b"hello".as_slice());
    assert_eq!(rt; again.len(), 5);
    again.set(0, b'j');
    assert_eq!(rt; again.as_slice(), b"jello".as_slice());
    again.overwrite(1, b"umb");
    assert_eq!(rt; again.as_slice(), b"jumbo".as_slice());
    Ok(())
}

#[test]
fn want_of_memory_has_a_text(rt: HostRuntime) -> Result<(), Fail> {
    let text = format!(in rt.alloc(); "{}", OutOfMemory)?;
    assert_eq!(rt; text.as_str(), "out of memory");
    Ok(())
}

#[test]
fn a_list_keeps_its_elements_in_order(rt: HostRuntime) -> Result<(), Fail> {
    let mut list: Listed<u32> = Listed::new(rt.alloc());
    assert!(rt; list.is_empty());
    list.push(7)?;
    list.push(8)?;
    assert_eq!(rt; list.len(), 2);
    assert_eq!(rt; list.replace(0, 9), 7);
    assert_eq!(rt; list.as_slice(), [9, 8].as_slice());
    let again = Listed::from(list.into_vec());
    assert_eq!(rt; again.as_slice(), [9, 8].as_slice());
    let copy = Listed::from_slice(rt.alloc(), again.as_slice())?;
    assert_eq!(rt; copy.iter().next(), Some(&9));
    assert_eq!(rt; copy.iter().count(), 2);
    Ok(())
}
