//! The race report of three accesses, and of a dump whose second record is cut short.
use report::told::races::told_report;
use std::test::Fail;

#[test]
fn report_of_three_accesses(rt: HostRuntime) -> Result<(), Fail> {
    let dump = [
        2, 0, 0, 0, 10, 0, 0, 0, 1, 1, 0, 0, 20, 0, 0, 0, 2, 2, 0, 0, 30, 0, 0, 0,
    ];
    let text = told_report(rt.alloc(), 24, &dump)?.told.text;
    assert_eq!(rt;
        text.as_str(),
        "events 3\nrace 0 1 sites 10 20\nrace 0 2 sites 10 30\nrace 1 2 sites 20 30\npairs 3\n"
    );
    let text = told_report(rt.alloc(), 24, &dump[0..12])?.told.text;
    assert_eq!(rt; text.as_str(), "refused 1 record 1\n");
    Ok(())
}
