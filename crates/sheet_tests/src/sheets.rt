// Sheets without fault: the arcs they name, and where they end.
use sheet::read::{Sheet, read};
use terms::arc::Arc;

// what every table holds before it is read into
const BEFORE: Arc = Arc {
    tail: 7,
    head: 7,
    least: 7,
};

#[test]
fn every_order_of_the_columns(rt: HostRuntime) {
    let texts: [&[u8]; 6] = [
        b"from to least\n1 2 3\n",
        b"from least to\n1 3 2\n",
        b"to from least\n2 1 3\n",
        b"to least from\n2 3 1\n",
        b"least from to\n3 1 2\n",
        b"least to from\n3 2 1\n",
    ];
    for text in texts {
        let mut table = [BEFORE; 2];
        assert_eq!(rt; read(text, &mut table), Ok(Sheet { arcs: 1, end: 20 }));
        assert_eq!(rt;
            table[0],
            Arc {
                tail: 1,
                head: 2,
                least: 3,
            }
        );
        assert_eq!(rt; table[1], BEFORE);
    }
}

#[test]
fn where_it_ends(rt: HostRuntime) {
    let mut table = [BEFORE; 2];
    assert_eq!(rt;
        read(b"from to least", &mut table),
        Ok(Sheet { arcs: 0, end: 13 })
    );
    assert_eq!(rt;
        read(b"from to least\n", &mut table),
        Ok(Sheet { arcs: 0, end: 14 })
    );
    assert_eq!(rt;
        read(b"from to least\n\nb 0 1 16\n", &mut table),
        Ok(Sheet { arcs: 0, end: 15 })
    );
    assert_eq!(rt;
        read(b"from to least\n0 1 2", &mut table),
        Ok(Sheet { arcs: 1, end: 19 })
    );
    assert_eq!(rt;
        read(b"from to least\n0 1 2\n\n3 4 x\n", &mut table),
        Ok(Sheet { arcs: 1, end: 21 })
    );
    assert_eq!(rt; table[1], BEFORE);
}

#[test]
fn the_largest_numbers_and_a_full_table(rt: HostRuntime) {
    let mut table = [BEFORE; 2];
    let text = b"from to least\n0000000001 4294967295 0\n2 3 4\n";
    assert_eq!(rt; read(text, &mut table), Ok(Sheet { arcs: 2, end: 44 }));
    assert_eq!(rt;
        table[0],
        Arc {
            tail: 1,
            head: 4294967295,
            least: 0,
        }
    );
    assert_eq!(rt;
        table[1],
        Arc {
            tail: 2,
            head: 3,
            least: 4,
        }
    );
}

#[test]
fn a_declined_sheet_leaves_the_table(rt: HostRuntime) {
    let mut table = [BEFORE; 2];
    assert!(rt; read(b"from to least\n0 1 2\n0 1\n", &mut table).is_err());
    assert_eq!(rt; table[0], BEFORE);
    assert!(rt; read(b"from to least\n0 1 2\n0 1 2\n0 1 2\n", &mut table).is_err());
    assert_eq!(rt; table[0], BEFORE);
}
