use super::*;
use std::test::Fail;

#[test]
fn a_table_has_64_rows(rt: HostRuntime) -> Result<(), Fail> {
    let Some(name) = Name::of(b"file0") else {
        assert!(rt; false);
        return Ok(());
    };
    let row = NodeRow {
        name,
        driver: Driver::File,
        read_only: true,
    };
    let mut table = Table::new(rt.alloc())?;
    for _ in 0..ROWS {
        if table.rows().len() < ROWS {
            table.push(row);
        }
    }
    assert_eq!(rt; table.rows().len(), 64);
    assert_eq!(rt; table.rows()[63], row);
    table.clear();
    assert!(rt; table.rows().is_empty());
    Ok(())
}
