// Faulty sheets: which line, which field, which cause.
use sheet::read::{Sheet, read};
use terms::arc::Arc;
use terms::fault::{LineFault, NumberFault, SheetFault};
use terms::refusal::Refusal;

const BLANK: Arc = Arc {
    tail: 0,
    head: 0,
    least: 0,
};

// What the reader answers to a text, with room for two arcs.
fn told(text: &[u8]) -> Result<Sheet, Refusal> {
    let mut table = [BLANK; 2];
    read(text, &mut table)
}

fn at(line: usize, fault: LineFault) -> Result<Sheet, Refusal> {
    Err(Refusal::Sheet(SheetFault { line, fault }))
}

fn field(line: usize, field: usize, cause: NumberFault) -> Result<Sheet, Refusal> {
    at(line, LineFault::Field(field, cause))
}

#[test]
fn the_first_line(rt: HostRuntime) {
    assert_eq!(rt; told(b""), at(1, LineFault::Names));
    assert_eq!(rt; told(b"\n0 1 2\n"), at(1, LineFault::Names));
    assert_eq!(rt; told(b"from to\n"), at(1, LineFault::Names));
    assert_eq!(rt; told(b"from to least \n"), at(1, LineFault::Names));
    assert_eq!(rt; told(b"from  to least\n"), at(1, LineFault::Names));
    assert_eq!(rt; told(b"from to to\n"), at(1, LineFault::Names));
    assert_eq!(rt; told(b"From to least\n"), at(1, LineFault::Names));
    assert_eq!(rt;
        told(b"from to least\r\n0 1 2\r\n"),
        at(1, LineFault::Names)
    );
}

#[test]
fn how_many_fields(rt: HostRuntime) {
    assert_eq!(rt; told(b"from to least\n0 1\n"), at(2, LineFault::WrongCount));
    assert_eq!(rt;
        told(b"from to least\n0 1 2 3\n"),
        at(2, LineFault::WrongCount)
    );
    assert_eq!(rt;
        told(b"from to least\n0 1 2 \n"),
        at(2, LineFault::WrongCount)
    );
    assert_eq!(rt;
        told(b"from to least\n0  1 2\n"),
        at(2, LineFault::WrongCount)
    );
    assert_eq!(rt; told(b"from to least\nx y\n"), at(2, LineFault::WrongCount));
    assert_eq!(rt;
        told(b"from to least\n0 1 2\n0 1"),
        at(3, LineFault::WrongCount)
    );
}

#[test]
fn which_cause(rt: HostRuntime) {
    assert_eq!(rt;
        told(b"from to least\n0  2\n"),
        field(2, 2, NumberFault::Empty)
    );
    assert_eq!(rt;
        told(b"from to least\n 1 2\n"),
        field(2, 1, NumberFault::Empty)
    );
    assert_eq!(rt;
        told(b"from to least\n0 1 \n"),
        field(2, 3, NumberFault::Empty)
    );
    assert_eq!(rt;
        told(b"from to least\n0 -1 2\n"),
        field(2, 2, NumberFault::NotADigit)
    );
    assert_eq!(rt;
        told(b"from to least\n0 1 2\r\n"),
        field(2, 3, NumberFault::NotADigit)
    );
    assert_eq!(rt;
        told(b"from to least\n0 \xc3\xa9 2\n"),
        field(2, 2, NumberFault::NotADigit)
    );
    assert_eq!(rt;
        told(b"from to least\n0 1 99999999999x\n"),
        field(2, 3, NumberFault::NotADigit)
    );
    assert_eq!(rt;
        told(b"from to least\n0 1 4294967296\n"),
        field(2, 3, NumberFault::TooLarge)
    );
    assert_eq!(rt;
        told(b"from to least\n00000000001 1 2\n"),
        field(2, 1, NumberFault::TooLarge)
    );
    assert_eq!(rt;
        told(b"from to least\n0 1 99999999999\n"),
        field(2, 3, NumberFault::TooLarge)
    );
}

#[test]
fn which_is_told_first(rt: HostRuntime) {
    assert_eq!(rt;
        told(b"from to least\nx  4294967296\n"),
        field(2, 1, NumberFault::NotADigit)
    );
    assert_eq!(rt;
        told(b"from to least\n0 1 x\n0 1\n"),
        field(2, 3, NumberFault::NotADigit)
    );
    assert_eq!(rt; told(b"bad\n0 1\n"), at(1, LineFault::Names));
    assert_eq!(rt; told(b"bad\n0 1\nx\n0 1 2\n"), Err(Refusal::TableShort));
    assert_eq!(rt;
        told(b"from to least\n0 1 2\n0 1 2\n0 1 2\n"),
        Err(Refusal::TableShort)
    );
}
