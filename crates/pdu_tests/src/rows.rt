// What no contract says: that memory is found.
use std::alloc::Global;
use std::test::Fail;
use wire_rows::{RowError, answer, row_of};

/// The answer of a row's text, none where it asks nothing.
fn answered(alloc: Global, row: &str) -> Result<Option<String>, RowError> {
    match row_of(alloc, row.as_bytes()) {
        Ok(asks) => Ok(Some(answer(alloc, &asks)?)),
        Err(RowError::Bad) => Ok(None),
        Err(error) => Err(error),
    }
}

/// Rows and their answers, none where a row asks nothing.
const ROWS: &[(&str, &str)] = &[
    ("pdu -", "more"),
    ("pdu 04000000000000000000000000000000", "bad Version"),
    (
        "pdu 050111031000aaBB10000000070000000102",
        "pdu 16 Shutdown 05001103100000001000000007000000",
    ),
    ("pdu 05000d03100000001200000001000000 0400", ""),
    (
        "pdu 05000d031000000012000000010000000400",
        "pdu 18 BindNak 05000d031000000015000000010000000400010500",
    ),
    ("feed - 05 00", "rest 2"),
    (
        "feed 0500000110000000190000000900000000000000000003000102 050000",
        "pdu 25 Request; rest 4",
    ),
    (
        "feed 050000031000000018000000020000000000000000000600",
        "pdu 24 Request; whole 2 0 6 -; rest 0",
    ),
    ("request 6 -", "bad Opnum"),
    ("request 65536 -", ""),
    ("request 08 -", ""),
    (
        "request 12 00000000000000a0000000408000000000000001",
        "stub 00000000000000a0000000408000000000000001",
    ),
    ("reply 0 00000000", "stub 00000000"),
    ("reply 0 000000", "bad Short 0"),
    ("reply 0 0000000000", "bad Rest 4"),
    ("form -", "bad 0"),
    (
        "form 4652534d010000000100000000000000040000000000000020000000020000000000000002000000\
         000000006869",
        "file 32 44 233d3119eef94b3c5d279fb6f3960fbb04c71cb0",
    ),
    ("pdu", ""),
    ("pdu 0", ""),
    ("feed  -", ""),
    ("frob -", ""),
];

#[test]
fn rows_are_answered(rt: HostRuntime) -> Result<(), Fail> {
    let alloc = rt.alloc();
    for (row, want) in ROWS {
        let found = answered(alloc, *row)?;
        let text = match &found {
            Some(text) => text.as_str(),
            None => "",
        };
        assert_eq!(rt; text, *want, "{row}");
    }
    Ok(())
}
