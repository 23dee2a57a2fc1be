//! Two users in two threads, whose last demands and shares stand.
use super::*;
use demand_book::Report;
use karma_rule::Shape;
use std::test::Fail;

#[test]
fn two_threads_join_leave_and_report(rt: HostRuntime) -> Result<(), Fail> {
    let shape = Shape::plan(2, 2, 1, 5)?;
    let done = report_at_once(&rt, rt.alloc(), shape, 1000)?;
    assert_eq!(rt; done.calls_left, 4_294_966_296);
    assert_eq!(rt; done.second, 1);

    // The last report is that of call 999, and call 1000 joins with one slice.
    let mut book = done.book;
    let mut report = Report::new(rt.alloc(), 2)?;
    book.tick(&mut report)?;
    assert!(rt; report.changed);
    for row in report.rows.items() {
        assert_eq!(rt; (row.demand, row.fair, row.floor), (999, 1, 0));
        assert_eq!(rt; (row.credits, row.given), (5, 1));
    }
    Ok(())
}
