// That a list and a chart are read where there is memory for them, and what is found and put at places.
use crate::cases::case_at;
use crate::charts::read_chart;
use crate::line::{put_bytes, put_number};
use crate::read::next_chart;
use crate::stream::read_list;
use std::test::Fail;

#[test]
fn list_is_read(rt: HostRuntime) -> Result<(), Fail> {
    let mut input = b"16x2 0\n20".as_slice();
    let list = read_list(rt.alloc(), &mut input, 6)?;
    assert_eq!(rt; list.as_slice(), b"16x2 0".as_slice());
    assert_eq!(rt; input, b"\n20".as_slice());
    Ok(())
}

#[test]
fn chart_is_read(rt: HostRuntime) -> Result<(), Fail> {
    let whole = read_chart(rt.alloc(), b"16x3 0 99999999999", 10)?;
    assert_eq!(rt; whole.as_slice(), [16, 16, 16, 0, u32::MAX].as_slice());
    let cut = read_chart(rt.alloc(), b"16x3 0 20", 2)?;
    assert_eq!(rt; cut.as_slice(), [16, 16].as_slice());
    Ok(())
}

#[test]
fn charts_are_found(rt: HostRuntime) -> Result<(), Fail> {
    let list = b"16x3 0\n20\n";
    let mut measures = [7u32; 3];
    let first = next_chart(list, 0, &mut measures);
    assert_eq!(rt; (first.next, first.measures), (7, 3));
    assert_eq!(rt; measures, [16, 16, 16]);
    let last = next_chart(list, first.next, &mut measures);
    assert_eq!(rt; (last.next, last.measures), (10, 1));
    assert_eq!(rt; measures, [20, 16, 16]);
    Ok(())
}

#[test]
fn cases_are_found(rt: HostRuntime) -> Result<(), Fail> {
    let list = b"\0\0\x02ab\0\0\x02c";
    let first = case_at(list, 0);
    assert_eq!(rt; (first.whole, first.start, first.end), (true, 3, 5));
    let cut = case_at(list, first.end);
    assert_eq!(rt; (cut.whole, cut.start, cut.end), (false, 5, 9));
    Ok(())
}

#[test]
fn line_is_cut(rt: HostRuntime) -> Result<(), Fail> {
    let mut line = [b'.'; 8];
    let number = put_bytes(&mut line, 0, b"n = ");
    let end = put_number(&mut line, number, 12);
    assert_eq!(rt; (end, line), (6, *b"n = 12.."));
    assert_eq!(rt; put_number(&mut line, end, 345), 8);
    assert_eq!(rt; put_bytes(&mut line, 9, b"!"), 8);
    assert_eq!(rt; line, *b"n = 1234");
    Ok(())
}
