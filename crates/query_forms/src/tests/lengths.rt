use super::{EXAMPLE, EXAMPLE_IN_TWO, filtered, migrated};
use std::test::Fail;

#[test]
fn files_grow_little(rt: HostRuntime) -> Result<(), Fail> {
    let alloc = rt.alloc();
    // by the version alone, and by each decimal text that is no fraction of at most 1
    let rows = [
        (EXAMPLE, 12),
        (EXAMPLE_IN_TWO, 0),
        (r#"{"tables":[],"queries":[],"owner":"\u00e9"}"#, 12),
        (
            r#"{"version":1,"tables":[{"name":"\/\u0061\"é","rows":0}],"queries":[]}"#,
            0,
        ),
        (
            r#"{"queries":[{"name":"q","relations":[{"alias":"x","filter":[1,1000000000000],"table":"t"},{"alias":"y","filter":[1,1],"table":"t"},{"alias":"z","filter":[0,7],"table":"t"}]}],"tables":[]}"#,
            12,
        ),
        (
            r#"{"queries":[{"joins":[{"left":"x","right":"x","selectivity":"0"}],"name":"q","relations":[{"alias":"x","filter":"1.1","table":"t"},{"alias":"y","filter":"0.000000000001","table":"t"}]}],"tables":[],"version":2}"#,
            26,
        ),
    ];
    for (file, most) in rows {
        let found = migrated(alloc, file.as_bytes())?;
        assert!(rt; found.len() <= file.len() + most, "of {file}");
    }
    Ok(())
}

#[test]
fn the_most_that_files_grow(rt: HostRuntime) -> Result<(), Fail> {
    let alloc = rt.alloc();
    let least = r#"{"queries":[],"tables":[]}"#;
    let found = migrated(alloc, least.as_bytes())?;
    assert_eq!(rt; found.len(), 38);
    for (filter, length) in [
        (r#""1.000000000001""#, 29),
        (r#""0.000000000000""#, 17),
        (r#""1.5""#, 7),
        (r#""0""#, 5),
        ("[1,10]", 5),
        (r#""0.999999999999""#, 16),
    ] {
        let file = filtered(alloc, 2, filter)?;
        let found = migrated(alloc, file.as_bytes())?;
        assert_eq!(rt;
            found.len() + filter.len(),
            file.len() + length,
            "of {filter}"
        );
    }
    Ok(())
}
