use crate::desk::prints;
use std::test::Fail;

#[test]
fn tells_what_and_where(rt: HostRuntime) -> Result<(), Fail> {
    prints(
        &rt,
        b"loop 3 :\n  feed 5\n speed 2\n",
        b"fault 18 line 3 column 1\n",
    )?;
    prints(&rt, b"loop 3 :", b"fault 18 line 1 column 0\n")?;
    prints(&rt, b"else :\n feed", b"fault 18 line 1 column 0\n")?;
    prints(&rt, b"", b"fault 15 line 0 column 0\n")?;
    prints(
        &rt,
        b"                                                                feed",
        b"fault 14 line 1 column 64\n",
    )?;
    prints(&rt, b"feed\n  \"open", b"fault 13 line 2 column 2\n")?;
    prints(&rt, b"feed \x00", b"fault 13 line 1 column 5\n")?;
    prints(
        &rt,
        b"a123456789012345678901234567890123 _",
        b"fault 13 line 1 column 35\n",
    )?;
    prints(
        &rt,
        b"a12345678901234567890123456789012",
        b"fault 14 line 1 column 0\n",
    )?;
    prints(&rt, b"feed ; 5", b"fault 16 line 1 column 5\n")
}

// A name on every line.
fn write_names(text: &mut [u8]) {
    for (i, byte) in text.iter_mut().enumerate() {
        *byte = if i % 2 == 0 { b'x' } else { b'\n' };
    }
}

#[test]
fn counts_pieces(rt: HostRuntime) -> Result<(), Fail> {
    let mut names = [0; 258];
    write_names(&mut names);
    prints(&rt, &names[0..94], &names[0..94])?;
    prints(&rt, &names[0..96], b"fault 17 line 0 column 0\n")?;
    prints(&rt, &names[0..256], b"fault 17 line 0 column 0\n")?;
    prints(&rt, &names[0..258], b"fault 15 line 0 column 0\n")
}

#[test]
fn measures_texts(rt: HostRuntime) -> Result<(), Fail> {
    let long = [b' '; 20000];
    prints(&rt, &long[0..12288], b"fault 15 line 0 column 0\n")?;
    prints(&rt, &long[0..12289], b"fault 12 line 0 column 0\n")?;
    let lines = [b'\n'; 12288];
    prints(&rt, &lines, b"fault 15 line 0 column 0\n")
}
