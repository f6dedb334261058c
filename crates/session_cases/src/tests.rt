use crate::reading::read_cases;
use std::test::Fail;

// Each breaks the form in another way.
const MALFORMED: [&str; 9] = [
    "> 2\n",
    "case: a\n> 2 \n",
    "case: a\n? 2\n",
    "case: a\n> {13\n",
    "case: a\n> 13}\n",
    "case: a\n> {256}\n",
    "case: a\n> 2\nslips: 8\n",
    "case: a\n< R 1\n> 2\n",
    "case: a\r\n",
];

#[test]
fn malformed_cases_are_refused(rt: HostRuntime) {
    for input in MALFORMED {
        assert!(rt; read_cases(rt.alloc(), input).is_err(), "{input}");
    }
}

#[test]
fn lines_of_a_case(rt: HostRuntime) -> Result<(), Fail> {
    let cases = read_cases(
        rt.alloc(),
        "case: a\nslips: 8\n2 > E {4..}\n>> N{13}\n< R 1\n",
    )?;
    let Some(case) = cases.first() else {
        return Err(Fail::new("no case"));
    };
    assert_eq!(rt; case.room, 8);
    assert_eq!(rt; case.file.as_slice(), b"E 4\nE 5\nN\r".as_slice());
    assert_eq!(rt; case.text.as_slice(), b"R 1\n".as_slice());
    Ok(())
}
