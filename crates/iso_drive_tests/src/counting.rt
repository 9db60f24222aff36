use iso_counting::{count_beside, count_heard};
use iso_drive::Heard;
use iso_fakes::check;
use iso_mix::Hearing;
use iso_tally::Tally;
use std::test::Fail;

#[test]
fn answers_by_what_they_come_to(_rt: HostRuntime) -> Result<(), Fail> {
    let mut tally = Tally::NONE;
    count_heard(&mut tally, Heard::Known, true);
    count_heard(&mut tally, Heard::Foreign, false);
    count_beside(&mut tally, Hearing::Known);
    check(tally.answers == 3, "answers")?;
    check(tally.late == 2, "late ones")?;
    check(tally.differing == 1, "differing ones")?;
    check(tally.foreign == 1, "foreign ones")
}
