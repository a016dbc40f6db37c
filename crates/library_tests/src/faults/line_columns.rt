//! Lines and columns.

use node_sources::line_column_of;
use std::test::Fail;

#[test]
fn characters_are_counted(rt: HostRuntime) -> Result<(), Fail> {
    let text = "a\n\tb é€c\n\nd";
    for (at, line, column) in [
        (0, 1, 1),
        (1, 1, 2),
        (2, 2, 1),
        (3, 2, 2),
        (4, 2, 3),
        (5, 2, 4),
        (7, 2, 5),
        (10, 2, 6),
        (11, 2, 7),
        (12, 3, 1),
        (13, 4, 1),
        (14, 4, 2),
        (99, 4, 2),
    ] {
        let line_column = line_column_of(text, at);
        assert_eq!(rt;
            (line_column.line, line_column.column),
            (line, column),
            "at {at}"
        );
    }
    Ok(())
}
