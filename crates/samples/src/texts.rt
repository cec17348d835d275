use crate::desk::{lays, prints, too_deep};
use policy::hanging::Hanging;
use policy::minimal::Minimal;
use policy::step::Step;
use std::test::Fail;

#[test]
fn lays_by_policy(rt: HostRuntime) -> Result<(), Fail> {
    let text = b"loop 3 :\n  feed 5\nspeed 2\n";
    let step = Step::new(4).map_err(|_| Fail::new("no step"))?;
    lays(&rt, &step, text, b"loop 3 :\n    feed 5\nspeed 2\n")?;
    lays(&rt, &Minimal, text, b"loop 3 :\n feed 5\nspeed 2\n")?;
    lays(&rt, &Hanging, text, b"loop 3 : feed 5\nspeed 2\n")
}

#[test]
fn nests_seven_deep(rt: HostRuntime) -> Result<(), Fail> {
    let step = Step::new(8).map_err(|_| Fail::new("no step"))?;
    let eight =
        b"loop 1 :\n loop 1 :\n  loop 1 :\n   loop 1 :\n    loop 1 :\n     loop 1 :\n      loop 1 :\n       loop 1 :\n        feed";
    too_deep(&rt, &step, eight, (4, 1))?;
    let seven =
        b"loop 1 :\n loop 1 :\n  loop 1 :\n   loop 1 :\n    loop 1 :\n     loop 1 :\n      loop 1 :\n       feed";
    lays(
        &rt,
        &step,
        seven,
        b"loop 1 :\n        loop 1 :\n                loop 1 :\n                        loop 1 :\n\
\x20                               loop 1 :\n                                        loop 1 :\n\
\x20                                               loop 1 :\n                                                        feed\n",
    )
}

#[test]
fn prints_scripts(rt: HostRuntime) -> Result<(), Fail> {
    prints(&rt, b"feed", b"feed\n")?;
    prints(&rt, b"   feed   5  \n\n\n", b"feed 5\n")?;
    prints(
        &rt,
        b"loop 3 :\n  feed 5\nspeed 2\n",
        b"loop 3 :\n    feed 5\nspeed 2\n",
    )?;
    prints(
        &rt,
        b"                                                               feed",
        b"feed\n",
    )
}
