// What a driver is told of a faulty sheet.
use report::report;
use std::test::Fail;
use terms::arc::Arc;

const BLANK: Arc = Arc {
    tail: 0,
    head: 0,
    least: 0,
};

#[test]
fn line_field_and_cause(rt: HostRuntime) -> Result<(), Fail> {
    let mut table = [BLANK; 2];
    let told = report(rt.alloc(), b"from to least\n0 1 4\n1 2x 5\n", &mut table)?;
    assert_eq!(rt;
        told.as_str(),
        "refused 11: line 3: field 2: not a whole number; only the digits 0 to 9 may stand here\n"
    );
    let told = report(rt.alloc(), b"from to least\n0 1\n", &mut table)?;
    assert_eq!(rt;
        told.as_str(),
        "refused 11: line 2: a line of values has exactly three numbers, parted by single spaces\n"
    );
    Ok(())
}
