//! Turns of aircraft on the ground.
use crate::assertions::assert_same;
use lines_of_flying::ground_turns::Segments;
use std::test::Fail;

#[test]
fn turns_beside_moments_without_aircraft(rt: HostRuntime) -> Result<(), Fail> {
    let segments = Segments::new(rt.alloc(), 1440, &[0, 539, 580, 1439])?;
    let within = (segments.is_clean(540, 580), segments.is_clean(539, 560));
    assert_same(&rt, within, (true, false));
    let without_wait = (segments.is_clean(580, 580), segments.is_clean(580, 581));
    assert_same(&rt, without_wait, (true, false));
    let past_the_start = (segments.is_clean(600, 1439), segments.is_clean(600, 539));
    assert_same(&rt, past_the_start, (true, false));
    Ok(())
}
