use crate::files::fault_of;
use std::alloc::{AllocError, Global};
use std::test::Fail;

// The first line, as a file to be filled.
fn header(alloc: Global) -> Result<Vec<u8>, AllocError> {
    Vec::from_slice(alloc, b"left sym1 rel1 sym2 rel2 sym3 rel3\n")
}

// Rules whose left symbols, or whose words, are that many letters.
fn file(alloc: Global, lefts: u8, words: u8) -> Result<Vec<u8>, AllocError> {
    let mut file = header(alloc)?;
    for i in 0..lefts {
        file.push(b'A' + i % 26)?;
        file.extend_from_slice(b" name = - - - -\n")?;
    }
    for i in 0..words {
        file.extend_from_slice(&[b'A', b' ', b'\'', b'a' + i % 26, b'a' + i / 26 % 26])?;
        file.extend_from_slice(b"' = - - - -\n")?;
    }
    Ok(file)
}

#[test]
fn counts(rt: HostRuntime) -> Result<(), Fail> {
    assert_eq!(rt; fault_of(file(rt.alloc(), 16, 0)?.as_slice()), None);
    assert_eq!(rt; fault_of(file(rt.alloc(), 17, 0)?.as_slice()), Some((6, 0)));
    assert_eq!(rt; fault_of(file(rt.alloc(), 1, 31)?.as_slice()), None);
    assert_eq!(rt; fault_of(file(rt.alloc(), 1, 32)?.as_slice()), Some((6, 0)));
    assert_eq!(rt; fault_of(file(rt.alloc(), 16, 31)?.as_slice()), None);
    Ok(())
}

#[test]
fn rules(rt: HostRuntime) -> Result<(), Fail> {
    let mut file = header(rt.alloc())?;
    for _ in 0..64 {
        file.extend_from_slice(b"A name = - - - -\n")?;
    }
    assert_eq!(rt; fault_of(file.as_slice()), None);
    file.extend_from_slice(b"A name = - - - -\n")?;
    assert_eq!(rt; fault_of(file.as_slice()), Some((6, 0)));
    Ok(())
}

#[test]
fn bytes(rt: HostRuntime) -> Result<(), Fail> {
    let mut file = header(rt.alloc())?;
    file.resize(35 + 4061, b'a')?;
    assert_eq!(rt; fault_of(file.as_slice()), Some((3, 2)));
    file.push(b'a')?;
    assert_eq!(rt; fault_of(file.as_slice()), Some((1, 0)));
    Ok(())
}
