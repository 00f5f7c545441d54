//! Workloads that are cut or nested too deep, and names that are none.
use super::answer;
use super::plans::BOTH;
use crate::Status;
use std::alloc::{AllocError, Global};
use std::test::Fail;

const NOT_JSON: &str = "input: not JSON\n";

#[test]
fn a_workload_that_is_cut_is_not_json(rt: HostRuntime) -> Result<(), Fail> {
    let alloc = rt.alloc();
    let bytes = BOTH.as_bytes();
    for n in 0..bytes.len() {
        let cut = bytes[..n].to_vec(alloc)?;
        let (status, written) = answer(&rt, alloc, &[], cut)?;
        assert_eq!(rt; status, Status::Input, "at {n}");
        assert_eq!(rt; written.as_slice(), NOT_JSON.as_bytes(), "at {n}");
    }
    let (status, _) = answer(&rt, alloc, &[], bytes.to_vec(alloc)?)?;
    assert_eq!(rt; status, Status::Done);
    Ok(())
}

#[test]
fn two_hundred_nested_arrays_are_not_json(rt: HostRuntime) -> Result<(), Fail> {
    let alloc = rt.alloc();
    let mut file = String::new(alloc);
    for bracket in ["[", "]"] {
        for _ in 0..200 {
            file.push_str(bracket)?;
        }
    }
    let (status, written) = answer(&rt, alloc, &[], file.into_bytes())?;
    assert_eq!(rt; status, Status::Input);
    assert_eq!(rt; written.as_slice(), NOT_JSON.as_bytes());
    Ok(())
}

/// A workload with one table, whose name is so many letters and then this text.
fn file_with_name(alloc: Global, letters: u32, text: &str) -> Result<Vec<u8>, AllocError> {
    let mut file = String::from_str(alloc, "{\"tables\":[{\"name\":\"")?;
    for _ in 0..letters {
        file.push_str("a")?;
    }
    file.push_str(text)?;
    file.push_str("\",\"rows\":1}],\"queries\":[]}")?;
    Ok(file.into_bytes())
}

#[test]
fn a_name_has_1_to_128_bytes_that_print(rt: HostRuntime) -> Result<(), Fail> {
    let alloc = rt.alloc();
    let fault = "input: bad shape at $.tables[0].name\n";
    for (letters, text, status, line) in [
        (128u32, "", Status::Done, ""),
        (129, "", Status::Input, fault),
        (0, "", Status::Input, fault),
        (1, "\u{7f}", Status::Input, fault),
    ] {
        let (found, written) = answer(&rt, alloc, &[], file_with_name(alloc, letters, text)?)?;
        assert_eq!(rt; found, status, "{letters} letters");
        assert_eq!(rt; written.as_slice(), line.as_bytes(), "{letters} letters");
    }
    Ok(())
}
