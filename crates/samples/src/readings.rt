use crate::desk::has_rules;
use std::test::Fail;

#[test]
fn belongs_by_columns(rt: HostRuntime) -> Result<(), Fail> {
    has_rules(&rt, b"feed", &[0, 1, 3, 9])?;
    has_rules(
        &rt,
        b"loop 3 :\n  feed 5\nspeed 2\n",
        &[0, 2, 4, 8, 12, 1, 3, 10, 12, 1, 3, 10, 12],
    )?;
    has_rules(
        &rt,
        b"loop 3 :\n  feed 5\n  speed 2\n",
        &[0, 1, 4, 8, 12, 2, 3, 10, 12, 1, 3, 10, 12],
    )?;
    has_rules(
        &rt,
        b"loop 3 :\n  feed 5\n   speed 2\n",
        &[0, 1, 4, 8, 12, 1, 3, 10, 15, 14, 12],
    )
}
