use super::*;
use std::test::Fail;

#[test]
fn faults_are_told_in_words(rt: HostRuntime) -> Result<(), Fail> {
    let text = format!(in rt.alloc(); "{}", Why::Count)?;
    assert_eq!(rt; text.as_str(), "wrong number of words");
    Ok(())
}
