//! That memory is there when it is there: a script of all its lines comes.
use script_gen::gen_script;
use std::test::Fail;

#[test]
fn all_lines_come(rt: HostRuntime) -> Result<(), Fail> {
    for seed in [0, 1, 2_147_483_647] {
        let script = gen_script(rt.alloc(), seed)?;
        assert_eq!(rt; script.lines.len(), 2_258);
        assert_eq!(rt; script.last_line, 2_259);
    }
    Ok(())
}
